// The calls as functions that C can call, thin: each makes the call and tells its answer as a number and through out parameters, which are set in every
// case. The budget is a number of the run from the caller on down to the stores. `domain_store_c` exports them.
#![tactic(auto)]

ghost use Rattle.std.specs.Prelude.{◌≡◌, length};
ghost use Rattle.ranges.specs.Ranges.{one_range};
ghost use Rattle.store.specs.Answer.{report};
ghost use Rattle.store.specs.Outcome.{buffers, outcome};
ghost use Rattle.store.specs.Calls.{make_call, open_call, create_call};
ghost use Rattle.store.specs.Means.{list_means};
ghost use Rattle.add.specs.Add.{add_call};
ghost use Rattle.delete.specs.Delete.{delete_call};
ghost use Rattle.commit.specs.Commit.{commit_call};
ghost use Rattle.advance.specs.Advance.{advance_call};
ghost use Rattle.restore.specs.Restore.{restore_call};
ghost use Rattle.look.specs.Look.{look_place};
ghost use Rattle.domain_store.specs.Boundary.{number_of, eight, listed_in_c, listed_by, looked_in_c, looked_by, OffsetWithin, Returns};

use look::{Place, look_place};
use ranges::Range;
use store::answers::{Answer, Ended};

// Tells how a call ended: its steps through the out parameter, its number as the result: 0 when done, 255 when stopped, else the refusal's.
// stays: numbers here and in the functions below, the C interface
fn tell(answer: Answer, steps: &mut u64) -> u32
    ensures number { result ≡ number_of (report answer).status (report answer).refusal }
    ensures steps { steps.new ≡ (report answer).steps }
{
    let (number, made) = match answer {
        Ok(
            Ended::Done {
                steps: made,
                handle: _,
            },
        ) => (0, made),
        Ok(Ended::Stopped(made)) => (255, made),
        Err(why) => (why.number(), 0),
    };
    *steps = made as u64;
    number
}

// The handle that an answer names, 0 where it names none.
fn handle_of(answer: Answer) -> u32
    ensures { result ≡ (report answer).handle }
{
    match answer {
        Ok(Ended::Done { steps: _, handle }) => handle,
        _ => 0,
    }
}

// Makes a fresh store.
pub fn ds_make(memory: &[u8], bodies: &[u8], table: &mut [u32], budget: u64, steps: &mut u64) -> u32
    ensures { Returns make_call budget (buffers memory.now bodies.now table.old)
        result steps.new (buffers memory.now bodies.now table.new) }
{
    let answer = begin::make(memory, bodies, table, budget as usize);
    tell(answer, steps)
}

// Puts the pending pairs in place.
pub fn ds_open(memory: &[u8], bodies: &[u8], table: &mut [u32], budget: u64, steps: &mut u64) -> u32
    ensures { Returns open_call budget (buffers memory.now bodies.now table.old)
        result steps.new (buffers memory.now bodies.now table.new) }
{
    let answer = begin::open(memory, bodies, table, budget as usize);
    tell(answer, steps)
}

// Adds a domain inside the innermost, and names its handle.
pub fn ds_create(
    memory: &[u8],
    bodies: &[u8],
    table: &mut [u32],
    budget: u64,
    steps: &mut u64,
    handle: &mut u32,
) -> u32
    ensures told { Returns create_call budget (buffers memory.now bodies.now table.old)
        result steps.new (buffers memory.now bodies.now table.new) }
    ensures named { handle.new
        ≡ (outcome (create_call (buffers memory.now bodies.now table.old)) budget
        (buffers memory.now bodies.now table.old)).report.handle }
{
    let answer = begin::create(memory, bodies, table, budget as usize);
    *handle = handle_of(answer);
    tell(answer, steps)
}

// Holds cells in the innermost domain.
pub fn ds_add(
    memory: &[u8],
    bodies: &mut [u8],
    table: &mut [u32],
    handle: u32,
    first: u32,
    count: u32,
    kind: u32,
    rule: u32,
    label: u32,
    budget: u64,
    steps: &mut u64,
) -> u32
    ensures { Returns (add_call handle (one_range first count kind rule label)) budget (buffers memory.now bodies.old table.old)
        result steps.new (buffers memory.now bodies.new table.new) }
{
    let answer = add::add(
        memory,
        bodies,
        table,
        handle,
        first,
        count,
        kind,
        rule,
        label,
        budget as usize,
    );
    tell(answer, steps)
}

// The same for the ranges of a lent list, all of them or none.
pub fn ds_add_ranges(
    memory: &[u8],
    bodies: &mut [u8],
    table: &mut [u32],
    handle: u32,
    ranges: &[Range],
    budget: u64,
    steps: &mut u64,
) -> u32
    ensures { Returns (add_call handle ranges.now) budget (buffers memory.now bodies.old table.old)
        result steps.new (buffers memory.now bodies.new table.new) }
{
    let answer = add::add_ranges(memory, bodies, table, handle, ranges, budget as usize);
    tell(answer, steps)
}

// Frees cells of a domain.
pub fn ds_delete(
    memory: &[u8],
    bodies: &[u8],
    table: &mut [u32],
    handle: u32,
    first: u32,
    count: u32,
    budget: u64,
    steps: &mut u64,
) -> u32
    ensures { Returns (delete_call handle first count) budget (buffers memory.now bodies.now table.old)
        result steps.new (buffers memory.now bodies.now table.new) }
{
    let answer = delete::delete(memory, bodies, table, handle, first, count, budget as usize);
    tell(answer, steps)
}

// Ends the innermost domain.
pub fn ds_commit(
    memory: &[u8],
    bodies: &[u8],
    table: &mut [u32],
    handle: u32,
    budget: u64,
    steps: &mut u64,
) -> u32
    ensures { Returns (commit_call handle) budget (buffers memory.now bodies.now table.old)
        result steps.new (buffers memory.now bodies.now table.new) }
{
    let answer = commit::commit(memory, bodies, table, handle, budget as usize);
    tell(answer, steps)
}

// Gives the read-write cells of the innermost domain memory's bytes.
pub fn ds_advance(
    memory: &[u8],
    bodies: &mut [u8],
    table: &mut [u32],
    handle: u32,
    budget: u64,
    steps: &mut u64,
) -> u32
    ensures { Returns (advance_call handle) budget (buffers memory.now bodies.old table.old)
        result steps.new (buffers memory.now bodies.new table.new) }
{
    let answer = advance::advance(memory, bodies, table, handle, budget as usize);
    tell(answer, steps)
}

// Puts memory back as a domain and those inside it hold it.
pub fn ds_restore(
    memory: &mut [u8],
    bodies: &[u8],
    table: &mut [u32],
    handle: u32,
    budget: u64,
    steps: &mut u64,
) -> u32
    ensures { Returns (restore_call handle) budget (buffers memory.old bodies.now table.old)
        result steps.new (buffers memory.new bodies.now table.new) }
{
    let answer = restore::restore(memory, bodies, table, handle, budget as usize);
    tell(answer, steps)
}

// Gives the number of live domains and their handles. What it promises of the handles says of the array what the array's type says already, that
// it has eight words.
pub fn ds_list(
    memory: &[u8],
    bodies: &[u8],
    table: &[u32],
    handles: &mut [u32; 8],
    count: &mut u32,
) -> u32
    ensures listed { listed_in_c result count.new ≡ listed_by (list_means (buffers memory.now bodies.now table.now)) }
    ensures handles { length handles.old ≡ 8 → eight handles.new
        ≡ eight (list_means (buffers memory.now bodies.now table.now)).handles }
{
    match begin::list(memory, bodies, table) {
        Ok(listing) => {
            let told = listing.handles;
            handles.copy_from_slice(&told);
            *count = listing.count;
            0
        }
        Err(why) => {
            handles.fill(0);
            *count = 0;
            why.number()
        }
    }
}

// Tells where the 64 bytes stand that restore would leave in a cell: they lie inside the buffer named.
pub fn ds_look(
    memory: &[u8],
    bodies: &[u8],
    table: &[u32],
    handle: u32,
    cell: u32,
    place: &mut u32,
    offset: &mut u64,
    rule: &mut u32,
) -> u32
    ensures found { looked_in_c result place.new offset.new rule.new
        ≡ looked_by (look_place handle cell (buffers memory.now bodies.now table.now)) }
    ensures within { OffsetWithin place.new offset.new rule.new (buffers memory.now bodies.now table.now) }
{
    match look_place(memory, bodies, table, handle, cell) {
        Ok(Place::Memory(at)) => {
            *place = 1;
            *offset = at as u64;
            *rule = 0;
            0
        }
        Ok(Place::Bodies(at)) => {
            *place = 2;
            *offset = at as u64;
            *rule = 0;
            0
        }
        Ok(Place::Rule(number)) => {
            *place = 3;
            *offset = 0;
            *rule = number;
            0
        }
        Err(why) => {
            *place = 0;
            *offset = 0;
            *rule = 0;
            why.number()
        }
    }
}
