// Delete: frees the named cells of the named domain.
//
// The questions come first, in one function that only reads. Then one pass over the entries stages those that are freed, and what is staged
// is written. No body is stored: a free body means nothing. Each pass ends with the last entry in use, or before, and what is staged has room
// for no more.
#![tactic(auto)]

ghost use Rattle.std.specs.Prelude.{◌≡◌, true, not, ℕ, ◌+◌, ◌*◌, ◌≤◌, ◌<◌, length, IfOk};
ghost use Rattle.words.specs.Layout.{cells_of, table_words, max_slots, max_cells, group_at};
ghost use Rattle.words.specs.Scan.{all};
ghost use Rattle.table.specs.Entry.{word1, child};
ghost use Rattle.marks.specs.Blocks.{mark_of, cells_in, EnoughBytes};
ghost use Rattle.table.specs.Marks.{has, EndsAt, Reached};
ghost use Rattle.table.specs.Changes.{keep, entry_changes};
ghost use Rattle.search.specs.Domain.{depth_named};
ghost use Rattle.changes.specs.Staged.{change_of, Journaled};
ghost use Rattle.store.specs.Answer.{number_in, report};
ghost use Rattle.store.specs.Checks.{lent};
ghost use Rattle.store.specs.Outcome.{buffers, Makes};
ghost use Rattle.store.specs.Means.{Shows};
ghost use Rattle.delete.specs.Delete.{delete_check, delete_change, delete_call, delete_means};
ghost use Rattle.delete.specs.Parts.{in_cells, via_word};

mod cells;

use cells::Cells;
use changes::head_words::Head;
use changes::staged::{FEW_BITS, FEW_WORDS, MANY_BITS, MANY_WORDS, Staged};
use changes::writer::write_staged;
use marks::{
    FEW_BLOCKS, FEW_BYTES, MANY_BYTES, SOME_BLOCKS, SOME_BYTES, blocks_wanted, has_depth, mark_of,
};
use store::answers::{Answer, Refusal};
use store::questions::{answer_of, live_check, range_check, store_check};
use table::lent::Entries;
use table::{FEW_SLOTS, reach_of};
use words::layout::{MAX_BODIES, cells_of, slots_of};

// ---- the questions

// Question 13: does the domain hold each of these cells? All marks are asked, with no branch.
fn all_held(seen: &[u8], cells: Cells) -> bool
    requires { max_cells ≤ cells_in seen.now }
    ensures { result ≡ all cells.count (λ j. has cells.depth (mark_of seen.now (cells.first + j))) }
{
    let mut held = true;
    for j in 0..cells.count {
        let cell = (cells.first + j) as usize;
        held = held & has_depth(mark_of(seen, cell), cells.depth);
    }
    held
}

// Question 14: does the next domain in hold none of these cells via parent? All entries up to `top` are asked, with no branch; those behind it are
// free.
fn none_via(entries: &Entries<'_>, cells: Cells) -> bool
    ensures { result ≡ all entries.now.slots (λ i. not (via_word (child cells.depth) cells.first cells.count (word1 entries.now.slots entries.now.words.now i))) }
{
    let mut none = true;
    for i in 0..entries.top {
        none = none & !cells.bears(entries.first_word(i));
    }
    none
}

// The questions put to delete, with marks of its own. The call goes on with the cells that are to be freed.
// It is taken into no other function, so that its large frame is made where it begins.
#[inline(never)]
fn check_with<const BYTES: usize>(
    memory: usize,
    bodies: usize,
    table: &[u32],
    top: usize,
    handle: u32,
    first: u32,
    count: u32,
) -> Result<Cells, Refusal>
    requires reached { Reached table.now top }
    requires room { EnoughBytes BYTES top (cells_of memory) }
    ensures no { number_in result ≡ delete_check (lent memory bodies table.now) handle first count }
    ensures cells { IfOk result (λ c. (c.depth ≡ depth_named table.now handle) × (c.first ≡ first) × (c.count ≡ count)) }
{
    let mut seen = [0u8; BYTES];
    let mut used = [0u8; MAX_BODIES];
    let sound = store_check(memory, bodies, table, top, &mut seen, &mut used)?;
    let depth = live_check(table, handle)?;
    range_check(cells_of(memory), first as usize, count as usize)?;
    let cells = Cells {
        depth,
        first,
        count,
    };
    if !all_held(&seen, cells) {
        return Err(Refusal::NotHeld);
    }
    if !none_via(&sound.entries, cells) {
        return Err(Refusal::ChildRelies);
    }
    Ok(cells)
}

// The same with marks by how many entries there are to pass: where few are, clearing more would take longer than all else. The questions alone need
// marks.
fn delete_check(
    memory: usize,
    bodies: usize,
    table: &[u32],
    top: usize,
    handle: u32,
    first: u32,
    count: u32,
) -> Result<Cells, Refusal>
    requires { Reached table.now top }
    ensures no { number_in result ≡ delete_check (lent memory bodies table.now) handle first count }
    ensures cells { IfOk result (λ c. (c.depth ≡ depth_named table.now handle) × (c.first ≡ first) × (c.count ≡ count)) }
{
    let blocks = blocks_wanted(top, cells_of(memory));
    if blocks <= FEW_BLOCKS {
        check_with::<FEW_BYTES>(memory, bodies, table, top, handle, first, count)
    } else if blocks <= SOME_BLOCKS {
        check_with::<SOME_BYTES>(memory, bodies, table, top, handle, first, count)
    } else {
        check_with::<MANY_BYTES>(memory, bodies, table, top, handle, first, count)
    }
}

// ---- what is staged

// What becomes of entry i: both its words become 0, if it is freed.
fn free_entry(entries: &Entries<'_>, cells: Cells, i: usize) -> Option<(u32, u32)>
    requires { i < entries.now.slots }
    ensures { change_of result ≡ delete_change entries.now.slots entries.now.words.now cells.depth cells.first cells.count i }
{
    cells.frees(entries.first_word(i)).then_some((0, 0))
}

// Is none of the entries from `from` to `end` freed? All of them are asked, with no branch, so that the compiler can ask many at once.
fn none_freed(entries: &Entries<'_>, cells: Cells, from: usize, end: usize) -> bool
    requires { (from ≤ end) × (end ≤ entries.now.slots) }
    ensures { result ≡ true → (i : ℕ) → from ≤ i → i < end → delete_change entries.now.slots entries.now.words.now cells.depth cells.first cells.count i ≡ keep }
{
    let mut none = true;
    for i in from..end {
        none = none & !cells.frees(entries.first_word(i));
    }
    none
}

// ---- the words

// Frees the cells. Gives the steps uncut.
// It is taken into no other function, so that its large frame is made where it begins, and not beside the marks, which no longer stand then.
#[inline(never)]
fn free_with<const WORDS: usize, const BITS: usize>(
    table: &mut [u32],
    slots: usize,
    top: usize,
    cells: Cells,
    budget: usize,
) -> usize
    requires small { (slots ≤ max_slots) × (length table.old ≡ table_words slots) }
    requires ends { EndsAt slots table.old top }
    requires room { (top ≤ group_at BITS) × (2 * group_at BITS ≤ WORDS) × (WORDS ≤ 2 * max_slots) }
    ensures { Journaled slots (entry_changes slots (delete_change slots table.old cells.depth cells.first cells.count)) budget table.old result table.new }
{
    let mut staged = Staged::<WORDS, BITS>::none();
    let entries = Entries {
        words: table,
        slots,
        top,
    };
    staged.stage_below(
        entries.top,
        |from, end| none_freed(&entries, cells, from, end),
        |i| free_entry(&entries, cells, i),
    );
    write_staged(table, slots, &Head::none(), staged.lent(), budget)
}

// Frees the cells, and gives the steps uncut. The arrays are chosen by how far the entries in use reach, whatever the marks were, so that a
// large table of few entries clears no more than a small one.
fn free_cells(table: &mut [u32], slots: usize, top: usize, cells: Cells, budget: usize) -> usize
    requires small { (slots ≤ max_slots) × (length table.old ≡ table_words slots) }
    requires ends { EndsAt slots table.old top }
    ensures { Journaled slots (entry_changes slots (delete_change slots table.old cells.depth cells.first cells.count)) budget table.old result table.new }
{
    if top <= FEW_SLOTS {
        return free_with::<FEW_WORDS, FEW_BITS>(table, slots, top, cells, budget);
    }
    free_with::<MANY_WORDS, MANY_BITS>(table, slots, top, cells, budget)
}

// ---- the call

// Frees the named cells of the named domain, whether it is the innermost or not.
pub fn delete(
    memory: &[u8],
    bodies: &[u8],
    table: &mut [u32],
    handle: u32,
    first: u32,
    count: u32,
    budget: usize,
) -> Answer
    ensures made { Makes (delete_call handle first count) budget (buffers memory.now bodies.now table.old)
        (report result) (buffers memory.now bodies.now table.new) }
    ensures means { Shows (delete_means handle first count) budget (buffers memory.now bodies.now table.old)
        (report result) (buffers memory.now bodies.now table.new) }
{
    let top = reach_of(table);
    let cells = delete_check(memory.len(), bodies.len(), table, top, handle, first, count)?;
    let slots = slots_of(table.len());
    let steps = free_cells(table, slots, top, cells, budget);
    answer_of(steps, 0, budget)
}
