// Add: names cells of memory for the innermost domain to hold, by a list of ranges; the plain add's has one.
//
// Which domains hold a cell is told by one mark a cell, and which bodies are in use by one mark a body. Question 4 makes these marks, and
// the call goes on with them. The ranges are asked one after the other (`checks`); what those before a range take, it finds held, which they tell
// themselves: no mark is changed. Via parent is compared with notes of where the entries stand, which go before anything is staged. Then the cells
// are taken in their order, over the whole list (`cells`): each new one gets the next free slot and, as a copy, the next free body, where its bytes
// go. The entries whose label rises are staged in a pass of their own (`labels`), which is left out where none can rise. What is staged is written at
// the end, by one journal. The arrays for it are made after the questions, by how far entries may change, and the marks before, by how many blocks of
// cells the entries may need.
#![tactic(auto)]

mod asked;
mod cells;
mod checks;
mod cursors;
mod labels;
mod part;
mod taking;

ghost use Rattle.std.specs.Prelude.{◌≡◌, ℕ, ◌+◌, ◌-◌, ◌*◌, ◌≤◌, ◌<◌, min, length, take, IfOk, OnOk};
ghost use Rattle.words.specs.Layout.{cells_of, slots_of, pairs_at, max_slots, group_at};
ghost use Rattle.words.specs.Scan.{count};
ghost use Rattle.words.specs.Stores.{stores};
ghost use Rattle.words.specs.Journal.{journal};
ghost use Rattle.ranges.specs.Ranges.{one_range};
ghost use Rattle.ranges.specs.Batch.{batch_ranges};
ghost use Rattle.marks.specs.Blocks.{block_at, groups_for};
ghost use Rattle.table.specs.Marks.{EndsAt, Reached, RoomForMarks, AllMarked};
ghost use Rattle.search.specs.Free.{end_of};
ghost use Rattle.model.specs.Answer.{steps_of};
ghost use Rattle.store.specs.Answer.{number_in, report};
ghost use Rattle.store.specs.Outcome.{buffers, Makes};
ghost use Rattle.store.specs.Means.{Shows};
ghost use Rattle.add.specs.Add.{is_new, add_check, add_call, add_means};
ghost use Rattle.add.specs.Walking.{Counted, Takeable, bytes_of, words_of};

use asked::Asking;
use changes::head_words::Head;
use changes::staged::{FEW_BITS, FEW_WORDS, MANY_BITS, MANY_WORDS, Staged};
use changes::writer::write_staged;
pub use checks::New;
pub use cursors::Cursors;
use marks::{FEW_BLOCKS, FEW_BYTES, MANY_BYTES, SOME_BLOCKS, SOME_BYTES, blocks_wanted};
pub use part::Part;
use ranges::fitting::Fitting;
use ranges::{Batch, MAX_RANGES, Range};
use store::answers::{Answer, Refusal};
use store::questions::{answer_of, innermost_check, store_check};
use table::lent::Entries;
use table::{FEW_SLOTS, reach_of};
use taking::Taking;
use words::layout::{MAX_BODIES, cells_of, slots_of};

// ---- the questions

// What the questions tell: the first no, or how many cells are newly held and how many of them by copy.
pub type Tally = Result<New, Refusal>;

// All the questions put to add; the entries from `top` on are free. Where no question refuses it, the marks are those of all entries.
#[tactic(auto, using(store::proofs::Refused::asking))]
fn add_check(
    memory: &[u8],
    bodies: &[u8],
    table: &[u32],
    top: usize,
    seen: &mut [u8],
    used: &mut [u8],
    handle: u32,
    list: &[Range],
) -> Tally
    requires { RoomForMarks table.now (cells_of (length memory.now)) top seen.old used.old }
    ensures no { number_in result ≡ add_check (buffers memory.now bodies.now table.now) handle list.now }
    ensures marks { OnOk result (AllMarked (slots_of (length table.now)) table.now seen.new used.new) }
    ensures counted { IfOk result (λ n. Counted (cells_of (length memory.now)) (slots_of (length table.now)) table.now list.now n.cells n.copies) }
{
    let sound = store_check(memory.len(), bodies.len(), table, top, seen, used)?;
    innermost_check(table, handle)?;
    if (list.len() == 0) | (MAX_RANGES < list.len()) {
        return Err(Refusal::NumberOfRanges);
    }
    let asking = Asking {
        memory,
        bodies,
        table: sound,
        held: seen,
    };
    asking.list_check(list)
}

// ---- the bytes and words

// Takes the new cells of the list and raises labels, with room for so many staged words, and writes what is staged. Returns the steps, uncut.
fn write_with<'a, const WORDS: usize, const BITS: usize>(
    memory: &'a [u8],
    bodies: &mut [u8],
    table: &mut [u32],
    top: usize,
    held: &'a [u8],
    used: &'a [u8],
    list: Fitting<'a>,
    budget: usize,
) -> usize
    requires able { Takeable memory.now bodies.old table.old held.now used.now list.ranges.now }
    requires cells { list.cells ≡ cells_of (length memory.now) }
    requires ends { EndsAt (slots_of (length table.old)) table.old top }
    requires room { (end_of (slots_of (length table.old))
        (count (cells_of (length memory.now)) (is_new (slots_of (length table.old)) table.old list.ranges.now)) top ≤ group_at BITS)
        × (2 * group_at BITS ≤ WORDS) × (WORDS ≤ 2 * max_slots) }
    ensures steps { result ≡ steps_of (length (bytes_of memory.now bodies.old table.old list.entry.ranges.now))
        (length (words_of memory.now bodies.old table.old list.entry.ranges.now)) }
    ensures bytes { bodies.new
        ≡ stores (take budget (bytes_of memory.now bodies.old table.old list.entry.ranges.now)) bodies.old }
    ensures words { table.new
        ≡ stores (take (budget - length (bytes_of memory.now bodies.old table.old list.entry.ranges.now))
        (journal (pairs_at (slots_of (length table.old)))
        (words_of memory.now bodies.old table.old list.entry.ranges.now))) table.old }
{
    let mut staged = Staged::<WORDS, BITS>::none();
    let slots = slots_of(table.len());
    let entries = Entries {
        words: table,
        slots,
        top,
    };
    let taking = Taking {
        memory,
        entries,
        held,
        used,
        list,
        room: bodies.len(),
    };
    let bytes = taking.take_cells(bodies, &mut staged, budget);
    taking.raise_entries(&mut staged);
    let left = budget.saturating_sub(bytes);
    bytes + write_staged(table, slots, &Head::none(), staged.lent(), left)
}

// All of add's stores, once no question refuses it, for so many new cells. Returns their number, uncut.
fn add_stores(
    memory: &[u8],
    bodies: &mut [u8],
    table: &mut [u32],
    top: usize,
    held: &[u8],
    used: &[u8],
    list: Fitting<'_>,
    new: usize,
    budget: usize,
) -> usize
    requires able { Takeable memory.now bodies.old table.old held.now used.now list.ranges.now }
    requires cells { list.cells ≡ cells_of (length memory.now) }
    requires new { EndsAt (slots_of (length table.old)) table.old top
        × (new ≡ count (cells_of (length memory.now)) (is_new (slots_of (length table.old)) table.old list.ranges.now)) }
    ensures steps { result ≡ steps_of (length (bytes_of memory.now bodies.old table.old list.entry.ranges.now))
        (length (words_of memory.now bodies.old table.old list.entry.ranges.now)) }
    ensures bytes { bodies.new
        ≡ stores (take budget (bytes_of memory.now bodies.old table.old list.entry.ranges.now)) bodies.old }
    ensures words { table.new
        ≡ stores (take (budget - length (bytes_of memory.now bodies.old table.old list.entry.ranges.now))
        (journal (pairs_at (slots_of (length table.old)))
        (words_of memory.now bodies.old table.old list.entry.ranges.now))) table.old }
{
    // No entry from here on changes: those from `top` on are free, and the list takes the lowest free slots, one for each new cell.
    let end = slots_of(table.len()).min(top + new);
    if end <= FEW_SLOTS {
        return write_with::<FEW_WORDS, FEW_BITS>(
            memory, bodies, table, top, held, used, list, budget,
        );
    }
    write_with::<MANY_WORDS, MANY_BITS>(memory, bodies, table, top, held, used, list, budget)
}

// ---- the call

// The call with room for marks in so many bytes.
// It is taken into no other function, so that its large frame is made where it begins.
#[inline(never)]
fn add_with<const BYTES: usize>(
    memory: &[u8],
    bodies: &mut [u8],
    table: &mut [u32],
    top: usize,
    handle: u32,
    list: &[Range],
    budget: usize,
) -> Answer
    requires reached { Reached table.old top }
    requires room { (block_at (min top (groups_for (cells_of (length memory.now))) + 1) ≤ BYTES) × (BYTES < 100000) }
    ensures { Makes (add_call handle list.now) budget (buffers memory.now bodies.old table.old)
        (report result) (buffers memory.now bodies.new table.new) }
{
    let mut seen = [0u8; BYTES];
    let mut used = [0u8; MAX_BODIES];
    let new = add_check(
        memory, bodies, table, top, &mut seen, &mut used, handle, list,
    )?;
    let fitting = Fitting {
        ranges: list,
        cells: cells_of(memory.len()),
    };
    let steps = add_stores(
        memory, bodies, table, top, &seen, &used, fitting, new.cells, budget,
    );
    answer_of(steps, 0, budget)
}

// The call on a list of any length; one that is empty, or has more than 64 ranges, is refused, and no range of it is read.
fn add_list(
    memory: &[u8],
    bodies: &mut [u8],
    table: &mut [u32],
    handle: u32,
    list: &[Range],
    budget: usize,
) -> Answer
    ensures { Makes (add_call handle list.now) budget (buffers memory.now bodies.old table.old)
        (report result) (buffers memory.now bodies.new table.new) }
{
    let top = reach_of(table);
    let blocks = blocks_wanted(top, cells_of(memory.len()));
    if blocks <= FEW_BLOCKS {
        add_with::<FEW_BYTES>(memory, bodies, table, top, handle, list, budget)
    } else if blocks <= SOME_BLOCKS {
        add_with::<SOME_BYTES>(memory, bodies, table, top, handle, list, budget)
    } else {
        add_with::<MANY_BYTES>(memory, bodies, table, top, handle, list, budget)
    }
}

// Adds the ranges of a batch to the innermost domain: all of them, or none.
pub fn add_batch(
    memory: &[u8],
    bodies: &mut [u8],
    table: &mut [u32],
    handle: u32,
    batch: Batch,
    budget: usize,
) -> Answer
    ensures made { Makes (add_call handle (batch_ranges batch)) budget (buffers memory.now bodies.old table.old)
        (report result) (buffers memory.now bodies.new table.new) }
    ensures means { Shows (add_means handle (batch_ranges batch)) budget (buffers memory.now bodies.old table.old)
        (report result) (buffers memory.now bodies.new table.new) }
{
    add_ranges(
        memory,
        bodies,
        table,
        handle,
        batch.ranges.as_slice(),
        budget,
    )
}

// Adds `count` cells from `first` on to the innermost domain, as copies (kind 0), via parent (kind 1) or by a rule (kind 2), read-only (label 0)
// or read-write (label 1): all of them, or none. It is the list of this one range.
// stays: kind and label as numbers, of which other numbers are refused with 7: the call asks no more of its callers than it did
pub fn add(
    memory: &[u8],
    bodies: &mut [u8],
    table: &mut [u32],
    handle: u32,
    first: u32,
    count: u32,
    kind: u32,
    rule: u32,
    label: u32,
    budget: usize,
) -> Answer
    ensures made { Makes (add_call handle (one_range first count kind rule label)) budget (buffers memory.now bodies.old table.old)
        (report result) (buffers memory.now bodies.new table.new) }
    ensures means { Shows (add_means handle (one_range first count kind rule label)) budget (buffers memory.now bodies.old table.old)
        (report result) (buffers memory.now bodies.new table.new) }
{
    let list = [Range {
        first,
        count,
        kind,
        rule,
        label,
    }];
    add_ranges(memory, bodies, table, handle, &list, budget)
}

// Adds the ranges of a lent list to the innermost domain: all of them, or none.
pub fn add_ranges(
    memory: &[u8],
    bodies: &mut [u8],
    table: &mut [u32],
    handle: u32,
    ranges: &[Range],
    budget: usize,
) -> Answer
    ensures made { Makes (add_call handle ranges.now) budget (buffers memory.now bodies.old table.old)
        (report result) (buffers memory.now bodies.new table.new) }
    ensures means { Shows (add_means handle ranges.now) budget (buffers memory.now bodies.old table.old)
        (report result) (buffers memory.now bodies.new table.new) }
{
    add_list(memory, bodies, table, handle, ranges, budget)
}
