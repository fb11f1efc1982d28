// Commit: it ends the innermost domain. Its cells move to the next domain out where that lacks them; where both hold a cell, the outer
// value stays, and the outer label becomes read-write if the inner was.
//
// The questions leave a mark for each cell, the set of the depths that hold it. One pass over the entries has the marks tell of the innermost
// depth which cells it holds read-write, and another stages each entry's change by them, so that no entry is compared with another. Both end
// with the last entry in use, or before. What is staged is then written. The outermost domain has nobody to move its cells to: its entries are
// freed, and nothing is asked of the marks.
#![tactic(auto)]

ghost use Rattle.std.specs.Prelude.{◌≡◌, ◌*◌, ◌≤◌, length, IfOk, OnOk};
ghost use Rattle.words.specs.Layout.{cells_of, slots_of, table_words, max_slots, max_cells, group_at};
ghost use Rattle.marks.specs.Blocks.{cells_in, Kept, EnoughBytes};
ghost use Rattle.table.specs.Marks.{Marked, EndsAt, Reached, RoomForMarks, AllMarked};
ghost use Rattle.changes.specs.Head.{head_stores};
ghost use Rattle.changes.specs.Staged.{Journaled};
ghost use Rattle.store.specs.Answer.{number_in, report};
ghost use Rattle.store.specs.Checks.{lent};
ghost use Rattle.store.specs.Lent.{SoundOf};
ghost use Rattle.store.specs.Outcome.{buffers, Makes};
ghost use Rattle.store.specs.Means.{Shows};
ghost use Rattle.commit.specs.Commit.{commit_check, commit_call, commit_means};
ghost use Rattle.commit.specs.Decide.{TellsBoth};
ghost use Rattle.commit.specs.Parts.{head_words, ending_words};

mod ending;

use changes::head_words::Head;
use changes::staged::{FEW_BITS, FEW_WORDS, MANY_BITS, MANY_WORDS, Staged};
use changes::writer::write_staged;
use ending::{Ending, Innermost};
use marks::{FEW_BLOCKS, FEW_BYTES, MANY_BYTES, SOME_BLOCKS, SOME_BYTES, blocks_wanted};
use search::writable::keep_writable;
use store::answers::{Answer, Refusal};
use store::questions::{answer_of, innermost_check, store_check};
use table::domains::{is_inner, parent_of};
use table::lent::{Entries, Sound};
use table::{FEW_SLOTS, reach_of};
use words::layout::{LIVE_AT, MAX_BODIES, cells_of, handle_at};

// ---- the questions

// The questions put to commit. The first of them leave the entries marked, and the call goes on with the table.
#[tactic(auto, using(store::proofs::Refused::asking), unfolding(crate::specs::Commit::commit_check))]
fn commit_check<'a>(
    memory: usize,
    bodies: usize,
    table: &'a [u32],
    top: usize,
    handle: u32,
    seen: &mut [u8],
    used: &mut [u8],
) -> Result<Sound<'a>, Refusal>
    requires { RoomForMarks table.now (cells_of memory) top seen.old used.old }
    ensures no { number_in result ≡ commit_check (lent memory bodies table.now) handle }
    ensures sound { IfOk result (SoundOf table.now top) }
    ensures marks { OnOk result (AllMarked (slots_of (length table.now)) table.now seen.new used.new) }
{
    let sound = store_check(memory, bodies, table, top, seen, used)?;
    innermost_check(table, handle)?;
    Ok(sound)
}

// Has the marks tell of the innermost depth which cells it holds read-write. The outermost domain has no parent whose entries could be
// raised, so that nothing is asked of its marks.
fn tell_writable(table: &Sound<'_>, innermost: Innermost, seen: &mut [u8])
    requires { Kept seen.old × Marked table.now.entries.slots table.now.entries.words.now table.now.entries.slots seen.old }
    ensures { TellsBoth table.now.entries.slots table.now.entries.words.now innermost.depth seen.new }
{
    if !is_inner(innermost.depth) {
        return;
    }
    keep_writable(&table.entries, innermost.depth, seen);
}

// ---- the words

// The words of the head: the number of live domains, and the handle that leaves.
fn commit_head(innermost: Innermost) -> Head
    ensures { head_stores result ≡ head_words innermost.depth }
{
    let left = parent_of(innermost.depth);
    Head::none()
        .with(LIVE_AT, left)
        .with(handle_at(left as usize), 0)
}

// Ends the innermost domain by what the marks tell. Gives the steps uncut.
fn end_with<const WORDS: usize, const BITS: usize>(
    table: &mut [u32],
    slots: usize,
    top: usize,
    innermost: Innermost,
    seen: &[u8],
    budget: usize,
) -> usize
    requires small { (slots ≤ max_slots) × (length table.old ≡ table_words slots) }
    requires ends { EndsAt slots table.old top }
    requires told { (max_cells ≤ cells_in seen.now) × TellsBoth slots table.old innermost.depth seen.now }
    requires room { (top ≤ group_at BITS) × (2 * group_at BITS ≤ WORDS) × (WORDS ≤ 2 * max_slots) }
    ensures { Journaled slots (ending_words slots table.old innermost.depth) budget table.old result table.new }
{
    let mut staged = Staged::<WORDS, BITS>::none();
    let entries = Entries {
        words: table,
        slots,
        top,
    };
    let ending = Ending {
        entries,
        innermost,
        seen,
    };
    // No group is left out: that an entry stays is told by its first word as fast.
    staged.stage_below(entries.top, |_, _| false, |i| ending.commit_entry(i));
    write_staged(table, slots, &commit_head(innermost), staged.lent(), budget)
}

// The same in arrays chosen by how far the entries in use reach, so that a large table of few entries clears no more than a small one. They are
// made here and not beside the marks, so that a call that is refused clears none, and a large memory makes them no larger.
fn end_domain(
    table: &mut [u32],
    slots: usize,
    top: usize,
    innermost: Innermost,
    seen: &[u8],
    budget: usize,
) -> usize
    requires small { (slots ≤ max_slots) × (length table.old ≡ table_words slots) }
    requires ends { EndsAt slots table.old top }
    requires told { (max_cells ≤ cells_in seen.now) × TellsBoth slots table.old innermost.depth seen.now }
    ensures { Journaled slots (ending_words slots table.old innermost.depth) budget table.old result table.new }
{
    if top <= FEW_SLOTS {
        return end_with::<FEW_WORDS, FEW_BITS>(table, slots, top, innermost, seen, budget);
    }
    end_with::<MANY_WORDS, MANY_BITS>(table, slots, top, innermost, seen, budget)
}

// ---- the call

// Commit with marks of its own: the questions leave them made.
// It is taken into no other function, so that its large frame is made where it begins.
#[inline(never)]
fn commit_with<const BYTES: usize>(
    memory: &[u8],
    bodies: &[u8],
    table: &mut [u32],
    top: usize,
    handle: u32,
    budget: usize,
) -> Answer
    requires reached { Reached table.old top }
    requires room { EnoughBytes BYTES top (cells_of (length memory.now)) }
    ensures { Makes (commit_call handle) budget (buffers memory.now bodies.now table.old)
        (report result) (buffers memory.now bodies.now table.new) }
{
    let mut seen = [0u8; BYTES];
    let mut used = [0u8; MAX_BODIES];
    let sound = commit_check(
        memory.len(),
        bodies.len(),
        table,
        top,
        handle,
        &mut seen,
        &mut used,
    )?;
    let slots = sound.entries.slots;
    let innermost = Innermost {
        depth: sound.entries.words[LIVE_AT],
    };
    tell_writable(&sound, innermost, &mut seen);
    let steps = end_domain(table, slots, top, innermost, &seen, budget);
    answer_of(steps, 0, budget)
}

// Ends the innermost domain. Where there are few entries, clearing marks for more would take longer than all else.
pub fn commit(memory: &[u8], bodies: &[u8], table: &mut [u32], handle: u32, budget: usize) -> Answer
    ensures made { Makes (commit_call handle) budget (buffers memory.now bodies.now table.old)
        (report result) (buffers memory.now bodies.now table.new) }
    ensures means { Shows (commit_means handle) budget (buffers memory.now bodies.now table.old)
        (report result) (buffers memory.now bodies.now table.new) }
{
    let top = reach_of(table);
    let blocks = blocks_wanted(top, cells_of(memory.len()));
    if blocks <= FEW_BLOCKS {
        commit_with::<FEW_BYTES>(memory, bodies, table, top, handle, budget)
    } else if blocks <= SOME_BLOCKS {
        commit_with::<SOME_BYTES>(memory, bodies, table, top, handle, budget)
    } else {
        commit_with::<MANY_BYTES>(memory, bodies, table, top, handle, budget)
    }
}
