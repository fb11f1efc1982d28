// Restore: it puts back each cell held by the named domain or one inside it, with the value of the outermost of these holders, and then ends
// the domains inside.
//
// The questions leave marks of the cells, with the domains that hold them, and by these the cells are put back (`holdings`). Memory is whole before
// any word of the table changes. Where domains end, their entries and the head's words are staged, and one writer stores them.
#![tactic(auto)]

mod holdings;

ghost use Rattle.std.specs.Prelude.{◌≡◌, true, ℕ, ◌+◌, ◌*◌, ◌≤◌, ◌<◌, min, length};
ghost use Rattle.words.specs.Layout.{cells_of, slots_of, table_words, max_slots, max_live, group_at};
ghost use Rattle.table.specs.Entry.{live};
ghost use Rattle.marks.specs.Blocks.{block_at, groups_for};
ghost use Rattle.table.specs.Marks.{EndsAt, Reached};
ghost use Rattle.table.specs.Changes.{keep};
ghost use Rattle.changes.specs.Head.{head_stores};
ghost use Rattle.changes.specs.Staged.{change_of, Journaled};
ghost use Rattle.store.specs.Answer.{report};
ghost use Rattle.store.specs.Outcome.{buffers, Makes};
ghost use Rattle.store.specs.Means.{Shows};
ghost use Rattle.restore.specs.Restore.{restore_change, restore_words, restore_call, restore_means};
ghost use Rattle.restore.specs.Parts.{head_words, ending_words};

use changes::head_words::Head;
use changes::staged::{FEW_BITS, FEW_WORDS, MANY_BITS, MANY_WORDS, Staged};
use changes::writer::write_staged;
use holdings::put_memory;
use marks::lent::{Directory, Marks};
use marks::{FEW_BLOCKS, FEW_BYTES, MANY_BYTES, SOME_BLOCKS, SOME_BYTES, blocks_wanted};
use store::answers::Answer;
use store::questions::{answer_of, live_check, store_check};
use table::domains::is_inside;
use table::fields::depth_of;
use table::lent::Entries;
use table::{FEW_SLOTS, reach_of};
use words::layout::{LIVE_AT, MAX_BODIES, cells_of, handle_at, slots_of};

// ---- the table

// The words of the head where domains end: the number of live domains, and the handles that leave.
fn head_where_end(depth: u32, live: u32) -> Head
    requires { (depth ≤ live) × (live ≤ max_live) }
    ensures { head_stores result ≡ head_words depth live }
{
    let mut head = Head::none().with(LIVE_AT, depth);
    for k in depth..live {
        head = head.with(handle_at(k as usize), 0);
    }
    head
}

// What becomes of entry i: both its words become 0, if it is deeper than this depth.
fn end_entry(entries: &Entries<'_>, depth: u32, i: usize) -> Option<(u32, u32)>
    requires { i < entries.now.slots }
    ensures { change_of result ≡ restore_change entries.now.slots entries.now.words.now depth i }
{
    is_inside(depth, depth_of(entries.first_word(i))).then_some((0, 0))
}

// Is none of the entries from `from` to `end` deeper? All of them are asked, with no branch, so that the compiler can ask many at once.
fn none_deeper(entries: &Entries<'_>, depth: u32, from: usize, end: usize) -> bool
    requires { (from ≤ end) × (end ≤ entries.now.slots) }
    ensures { result ≡ true → (i : ℕ) → from ≤ i → i < end → restore_change entries.now.slots entries.now.words.now depth i ≡ keep }
{
    let mut none = true;
    for i in from..end {
        none = none & !is_inside(depth, depth_of(entries.first_word(i)));
    }
    none
}

// Ends the domains inside this depth. Gives the steps uncut.
// It is taken into no other function, so that its large frame is made where it begins.
#[inline(never)]
fn end_with<const WORDS: usize, const BITS: usize>(
    table: &mut [u32],
    slots: usize,
    top: usize,
    depth: u32,
    live: u32,
    budget: usize,
) -> usize
    requires sizes { (slots ≤ max_slots) × (length table.old ≡ table_words slots) × EndsAt slots table.old top × (depth ≤ live) × (live ≤ max_live) }
    requires room { (top ≤ group_at BITS) × (2 * group_at BITS ≤ WORDS) × (WORDS ≤ 2 * max_slots) }
    ensures { Journaled slots (ending_words slots table.old depth live) budget table.old result table.new }
{
    let mut staged = Staged::<WORDS, BITS>::none();
    let entries = Entries {
        words: table,
        slots,
        top,
    };
    staged.stage_below(
        top,
        |from, end| none_deeper(&entries, depth, from, end),
        |i| end_entry(&entries, depth, i),
    );
    write_staged(
        table,
        slots,
        &head_where_end(depth, live),
        staged.lent(),
        budget,
    )
}

// Restore's part on the table, and its steps uncut. Where no domain ends, which is the usual case, nothing is staged, so the arrays for it are
// made here and not beside the marks: that case clears none. Only entries in front of `top` can be freed.
fn end_domains(table: &mut [u32], top: usize, depth: u32, budget: usize) -> usize
    requires { (slots_of (length table.old) ≤ max_slots) × (length table.old ≡ table_words (slots_of (length table.old)))
        × EndsAt (slots_of (length table.old)) table.old top × (depth ≤ live table.old) × (live table.old ≤ max_live) }
    ensures { Journaled (slots_of (length table.old)) (restore_words depth table.old) budget table.old result table.new }
{
    let live = table[LIVE_AT];
    if live == depth {
        return 0;
    }
    let slots = slots_of(table.len());
    if top <= FEW_SLOTS {
        end_with::<FEW_WORDS, FEW_BITS>(table, slots, top, depth, live, budget)
    } else {
        end_with::<MANY_WORDS, MANY_BITS>(table, slots, top, depth, live, budget)
    }
}

// ---- the call

// Restore with marks of its own in so many bytes: the questions leave them made, and the cells are put back by them.
// It is taken into no other function, so that its large frame is made where it begins.
#[inline(never)]
fn restore_with<const BYTES: usize>(
    memory: &mut [u8],
    bodies: &[u8],
    table: &mut [u32],
    top: usize,
    handle: u32,
    budget: usize,
) -> Answer
    requires reached { Reached table.old top }
    requires room { (block_at (min top (groups_for (cells_of (length memory.old))) + 1) ≤ BYTES) × (BYTES < 100000) }
    ensures { Makes (restore_call handle) budget (buffers memory.old bodies.now table.old)
        (report result) (buffers memory.new bodies.now table.new) }
{
    let mut seen = [0u8; BYTES];
    let mut used = [0u8; MAX_BODIES];
    let sound = store_check(memory.len(), bodies.len(), table, top, &mut seen, &mut used)?;
    let depth = live_check(sound.entries.words, handle)?;
    let marks = Marks {
        directory: Directory { seen: &seen },
    };
    let bytes = put_memory(memory, bodies, &sound, depth, &marks, budget);
    let words = end_domains(table, top, depth, budget.saturating_sub(bytes));
    answer_of(bytes + words, 0, budget)
}

// Puts memory back as the named domain and those inside it hold it, and ends those inside. Clearing marks for the largest memory would take longer
// than all else where there are few entries.
pub fn restore(
    memory: &mut [u8],
    bodies: &[u8],
    table: &mut [u32],
    handle: u32,
    budget: usize,
) -> Answer
    ensures made { Makes (restore_call handle) budget (buffers memory.old bodies.now table.old)
        (report result) (buffers memory.new bodies.now table.new) }
    ensures means { Shows (restore_means handle) budget (buffers memory.old bodies.now table.old)
        (report result) (buffers memory.new bodies.now table.new) }
{
    let top = reach_of(table);
    let blocks = blocks_wanted(top, cells_of(memory.len()));
    if blocks <= FEW_BLOCKS {
        restore_with::<FEW_BYTES>(memory, bodies, table, top, handle, budget)
    } else if blocks <= SOME_BLOCKS {
        restore_with::<SOME_BYTES>(memory, bodies, table, top, handle, budget)
    } else {
        restore_with::<MANY_BYTES>(memory, bodies, table, top, handle, budget)
    }
}
