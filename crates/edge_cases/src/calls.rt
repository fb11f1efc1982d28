// The calls into the store, over buffers that are lent to it, and what they answer.
use crate::acts::{Act, Cells, Kind, Label, Listed};
use look::{LookAnswer, Place};
use store::answers::{Answer, Ended, Listing, Refusal};

// What look gives by its three functions.
#[derive(Clone, Copy)]
pub struct Look<'a> {
    pub place: Result<Place, Refusal>,
    pub part: &'a [u8],
    pub answer: Result<LookAnswer, Refusal>,
}

// ---- a store that is read

#[derive(Clone, Copy)]
pub struct Seen<'a> {
    pub memory: &'a [u8],
    pub bodies: &'a [u8],
    pub table: &'a [u32],
}

impl<'a> Seen<'a> {
    pub fn list(&self) -> Result<Listing, Refusal> {
        begin::list(self.memory, self.bodies, self.table)
    }

    pub fn look(&self, handle: u32, cell: u32) -> Look<'a> {
        let memory = self.memory;
        let bodies = self.bodies;
        let table = self.table;
        Look {
            place: look::look_place(memory, bodies, table, handle, cell),
            part: look::look(memory, bodies, table, handle, cell),
            answer: look::look_answer(memory, bodies, table, handle, cell),
        }
    }
}

// ---- a store that is called

#[derive(Drop)]
pub struct Lent<'a> {
    pub memory: &'a mut [u8],
    pub bodies: &'a mut [u8],
    pub table: &'a mut [u32],
}

impl Lent<'_> {
    // What a call answers, or nothing for an act that is none.
    pub fn call(self, act: Act, budget: usize) -> Option<Answer> {
        let Lent {
            memory,
            bodies,
            table,
        } = self;
        let answer = match act {
            Act::Make => begin::make(memory, bodies, table, budget),
            Act::Open => begin::open(memory, bodies, table, budget),
            Act::Create => begin::create(memory, bodies, table, budget),
            Act::Delete(handle, Cells(first, count)) => {
                delete::delete(memory, bodies, table, handle, first, count, budget)
            }
            Act::Advance(handle) => advance::advance(memory, bodies, table, handle, budget),
            Act::Commit(handle) => commit::commit(memory, bodies, table, handle, budget),
            Act::Restore(handle) => restore::restore(memory, bodies, table, handle, budget),
            Act::Add(handle, cells, kind, label) => {
                let range = range_of(cells, kind, label);
                add(memory, bodies, table, handle, range, budget)
            }
            Act::AddRanges(handle, list) => {
                let batch = batch_of(list);
                add::add_batch(memory, bodies, table, handle, batch, budget)
            }
            _ => return read(memory, bodies, table, act),
        };
        Some(answer)
    }
}

// Of a reading, only the answer is told.
fn read(memory: &[u8], bodies: &[u8], table: &[u32], act: Act) -> Option<Answer> {
    let seen = Seen {
        memory,
        bodies,
        table,
    };
    let nothing = Ended::Done {
        steps: 0,
        handle: 0,
    };
    match act {
        Act::List => Some(seen.list().map(|_| nothing)),
        Act::Look(handle, cell) => Some(seen.look(handle, cell).answer.map(|_| nothing)),
        _ => None,
    }
}

// A range as an add takes it.
fn range_of(cells: Cells, kind: Kind, label: Label) -> ranges::Range {
    let Cells(first, count) = cells;
    let (kind, rule) = kind.numbers();
    let label = label.number();
    ranges::Range {
        first,
        count,
        kind,
        rule,
        label,
    }
}

fn add(
    memory: &[u8],
    bodies: &mut [u8],
    table: &mut [u32],
    handle: u32,
    range: ranges::Range,
    budget: usize,
) -> Answer {
    let ranges::Range {
        first,
        count,
        kind,
        rule,
        label,
    } = range;
    add::add(
        memory, bodies, table, handle, first, count, kind, rule, label, budget,
    )
}

// The ranges are gathered here into a batch. `add_ranges` and the C function, which are lent a list, are tried from C and from Rust.
fn batch_of(list: &[Listed]) -> ranges::Batch {
    let mut batch = ranges::no_batch();
    for listed in list {
        batch = match *listed {
            Listed::Once(cells, kind, label) => kept(batch, range_of(cells, kind, label), 1),
            Listed::Times(times, cells, kind, label) => {
                kept(batch, range_of(cells, kind, label), times)
            }
        };
    }
    batch
}

// A range as often as it stands in its list.
fn kept(batch: ranges::Batch, range: ranges::Range, times: u32) -> ranges::Batch {
    let ranges::Range {
        first,
        count,
        kind,
        rule,
        label,
    } = range;
    let mut next = batch;
    for _ in 0..times {
        next = ranges::keep(next, first, count, kind, rule, label);
    }
    next
}
