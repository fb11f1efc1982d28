// Advance: every read-write cell of the innermost domain whose value memory has no more gets memory's bytes, as a copy in a body that was free. The
// others have them already, and keep kind and body. Of those that change, the next domain out gets what it lacks, as it was: by an entry with the
// old words but for the depth, so that the old body changes owner and is not copied.
//
// A body in use is never written, so that a cut leaves the old copies whole. The questions are asked of the entries and not of the cells: there
// may be 65,536 cells, but no more than 4,096 entries. Each innermost read-write entry is compared with memory once (values): by its own body or
// rule, or by what its chain ends in, for which notes tell where to begin the search. The entries that advance set their cells' bits, 64 cells to
// a number, and there is a number for each block of the marks that question 4 made: so they cost what the table has and not what memory has. A
// walk over the groups that have a block notes how many bits there are up to the end of each. That tells the rank of each cell, and a pass over
// the entries lists the slots of those that advance in the order of their cells. Along the list each cell is copied into the lowest body that is
// free, and its entry is staged with that body. Where the marks say that the parent lacks the cell, the old words are staged besides, for the lowest
// slot that is free. Then the staged words are written by the journal.
#![tactic(auto)]

ghost use Rattle.std.specs.Prelude.{◌≡◌, true, cond, ℕ, ◌+◌, ◌*◌, ◌≤◌, ◌<◌, min, eqb, length, take, get_or, IfOk};
ghost use Rattle.words.specs.Layout.{cell_at, cells_of, bodies_of, slots_of, max_slots, max_cells, max_bodies, max_live, cell_size, group_at, group_of};
ghost use Rattle.words.specs.Scan.{all, count, nth};
ghost use Rattle.words.specs.Stores.{stores, gather};
ghost use Rattle.words.specs.Cells.{cell_plan};
ghost use Rattle.table.specs.Entry.{live, word1, depth_of, has_parent, cell_of, as_copy};
ghost use Rattle.marks.specs.Blocks.{block_of, block_at, max_groups, groups_for, directory_end, Kept};
ghost use Rattle.table.specs.Marks.{Blank, CellsOnce, EndsAt, Reached, RoomForMarks, cell_in, zeros};
ghost use Rattle.table.specs.Changes.{keep, put};
ghost use Rattle.search.specs.Free.{free_from, end_of, unmarked};
ghost use Rattle.values.specs.Values.{entry_changed};
ghost use Rattle.changes.specs.Staged.{Inside, Restaged, Stages};
ghost use Rattle.store.specs.Answer.{number_in, report};
ghost use Rattle.store.specs.Outcome.{buffers, Makes};
ghost use Rattle.store.specs.Means.{Shows};
ghost use Rattle.advance.specs.Advance.{advances, turns as turnsBy, advance_check, advance_call, advance_means};
ghost use Rattle.advance.specs.Notes.{entry_given, entries_check, lacks_it, gives_it, Comparable, by_group, has_bit, BlockBits, mark_turning, ChangedBits, Ready, Told, performed, Ends, list_slot, ListedSlots, InOrder, RoomForListed, change_to, Givable, GivenOne, GivenListed, Outwards};

use changes::head_words::Head;
use changes::staged::{FEW_BITS, FEW_WORDS, MANY_BITS, MANY_WORDS, Staged, with_bit};
use changes::writer::write_staged;
use marks::lent::Directory;
use marks::{
    FEW_BLOCKS, FEW_BYTES, MANY_BYTES, SOME_BLOCKS, SOME_BYTES, blocks_wanted, group_of, has_depth,
    mark_of,
};
use search::notes::{FEW_NOTES, MANY_NOTES, Notes};
use search::places::{count_used, next_free_body, next_free_slot};
use store::answers::{Answer, Refusal};
use store::questions::{answer_of, innermost_check, store_check};
use table::domains::{is_inner, parent_of};
use table::fields::{cell_of, depth_of, is_via, move_out, to_copy};
use table::lent::{Entries, Sound};
use table::{FEW_SLOTS, reach_of};
use values::compared::entry_changed;
use words::copy_cell;
use words::layout::{CELL_SIZE, GROUP_SIZE, LIVE_AT, MAX_BODIES, bodies_of, cells_of, slots_of};

// ---- the questions

// Sets the bit of an entry's cell where the entry advances, in the number of its group's block. Any other entry sets no bit: also a free one, whose
// word names cell 0.
fn mark_turning(bits: &mut [u64], seen: &[u8], word: u32, goes: bool)
    requires { (directory_end ≤ length seen.now) × (block_of seen.now (group_of (cell_of word)) < length bits.old) }
    ensures { bits.new ≡ mark_turning goes word (block_of seen.now (group_of (cell_of word))) bits.old }
{
    let cell = cell_of(word);
    let directory = Directory { seen };
    let b = directory.block_of(group_of(cell));
    bits[b] = with_bit(bits[b], cell % GROUP_SIZE, goes);
}

// Sets the bits of the cells of all entries that advance, one comparison for each innermost read-write entry, and gives how many these are. Notes
// in N buckets tell where to begin a search.
fn mark_changed<const N: usize>(
    memory: &[u8],
    bodies: &[u8],
    table: &Sound<'_>,
    live: u32,
    seen: &[u8],
    bits: &mut [u64],
) -> usize
    requires notes { N ≤ MANY_NOTES }
    requires comparable { Comparable memory.now bodies.now table.now.entries.slots table.now.entries.words.now table.now.entries.top live seen.now }
    requires blank { (length seen.now ≤ block_at (length bits.old)) × Blank bits.old }
    ensures counted { result ≡ count table.now.entries.slots (entry_changed memory.now bodies.now table.now.entries.slots table.now.entries.words.now live) }
    ensures bits { ChangedBits memory.now bodies.now table.now.entries.slots table.now.entries.words.now live seen.now bits.new }
{
    let mut notes = Notes::<N>::none();
    notes.note(&table.entries);
    let mut n: usize = 0;
    for i in 0..table.entries.top {
        let goes = entry_changed(memory, bodies, table, live, i, notes.lent());
        n += goes as usize;
        mark_turning(bits, seen, table.entries.first_word(i), goes);
    }
    n
}

// Is one of the entries via parent? Of the others each has its value itself, so that nothing is searched for. It takes no branch on what an entry
// holds, and is asked for the time's sake alone.
fn any_via(entries: &Entries<'_>) -> bool {
    let mut any = false;
    for i in 0..entries.top {
        any |= is_via(entries.first_word(i));
    }
    any
}

// The same with notes where there is something to search for, as many as the entries in use need.
fn changed_cells(
    memory: &[u8],
    bodies: &[u8],
    table: &Sound<'_>,
    live: u32,
    seen: &[u8],
    bits: &mut [u64],
) -> usize
    requires comparable { Comparable memory.now bodies.now table.now.entries.slots table.now.entries.words.now table.now.entries.top live seen.now }
    requires blank { (length seen.now ≤ block_at (length bits.old)) × Blank bits.old }
    ensures counted { result ≡ count table.now.entries.slots (entry_changed memory.now bodies.now table.now.entries.slots table.now.entries.words.now live) }
    ensures bits { ChangedBits memory.now bodies.now table.now.entries.slots table.now.entries.words.now live seen.now bits.new }
{
    if !any_via(&table.entries) {
        mark_changed::<1>(memory, bodies, table, live, seen, bits)
    } else if table.entries.top <= FEW_SLOTS {
        mark_changed::<FEW_NOTES>(memory, bodies, table, live, seen, bits)
    } else {
        mark_changed::<MANY_NOTES>(memory, bodies, table, live, seen, bits)
    }
}

// Has a cell its bit?
fn has_bit(seen: &[u8], bits: &[u64], cell: usize) -> bool
    requires { BlockBits seen.now bits.now × (cell < max_cells) }
    ensures { result ≡ has_bit seen.now bits.now cell }
{
    let directory = Directory { seen };
    let b = directory.block_of(group_of(cell));
    (bits[b] >> (cell % GROUP_SIZE)) % 2 == 1
}

// Does an entry with this first word advance: is it innermost, and has its cell its bit?
fn turns(seen: &[u8], bits: &[u64], word: u32, live: u32) -> bool
    requires { BlockBits seen.now bits.now }
    ensures { result ≡ turnsBy live (has_bit seen.now bits.now) word }
{
    (depth_of(word) == live) & has_bit(seen, bits, cell_of(word))
}

// Does the parent lack the cell of an entry, as the marks of the cells tell?
fn parent_lacks(seen: &[u8], word: u32, live: u32) -> bool
    requires { Kept seen.now × (1 ≤ live) × (live ≤ max_live) }
    ensures { result ≡ lacks_it seen.now live word }
{
    !has_depth(mark_of(seen, cell_of(word)), parent_of(live))
}

// How many cells are given outwards: those of the entries that advance, which have their bits, where there is a parent and it lacks them. It takes no
// branch on what an entry holds.
fn count_given(entries: &Entries<'_>, live: u32, seen: &[u8], bits: &[u64]) -> usize
    requires lives { (1 ≤ live) × (live ≤ max_live) }
    requires sized { BlockBits seen.now bits.now }
    ensures { result ≡ cond (has_parent live)
        (count entries.now.slots (λ i. gives_it seen.now live (has_bit seen.now bits.now) (word1 entries.now.slots entries.now.words.now i))) 0 }
{
    if !is_inner(live) {
        return 0;
    }
    let mut n: usize = 0;
    for i in 0..entries.top {
        let word = entries.first_word(i);
        n += (turns(seen, bits, word, live) & parent_lacks(seen, word, live)) as usize;
    }
    n
}

// Questions 16 and 17, asked of the entries: a right table has as many entries that advance as such cells. The bits of the cells of these entries
// are set on the way. Gives how many cells are given outwards.
fn entries_check(
    memory: &[u8],
    bodies: &[u8],
    table: &Sound<'_>,
    seen: &[u8],
    bits: &mut [u64],
) -> Result<usize, Refusal>
    requires comparable { Comparable memory.now bodies.now table.now.entries.slots table.now.entries.words.now table.now.entries.top (live table.now.entries.words.now) seen.now }
    requires blank { (length seen.now ≤ block_at (length bits.old)) × Blank bits.old }
    ensures no { number_in result ≡ entries_check memory.now bodies.now table.now.entries.slots table.now.entries.words.now }
    ensures given { IfOk result (λ given. given ≡ count table.now.entries.slots (entry_given memory.now bodies.now table.now.entries.slots table.now.entries.words.now)) }
    ensures bits { ChangedBits memory.now bodies.now table.now.entries.slots table.now.entries.words.now (live table.now.entries.words.now) seen.now bits.new }
{
    let live = table.entries.words[LIVE_AT];
    let k = changed_cells(memory, bodies, table, live, seen, bits);
    let given = count_given(&table.entries, live, seen, bits);
    let used = count_used(&table.entries);
    if table.entries.slots < used.entries + given {
        return Err(Refusal::NoFreeEntry);
    }
    if bodies_of(bodies.len()) < used.copies + k {
        return Err(Refusal::NoFreeBody);
    }
    Ok(given)
}

// The questions put to advance. Once no question refuses the call, the bodies in use and the cells held are marked, the cells that advance have
// their bits, and those given outwards are counted.
fn advance_check(
    memory: &[u8],
    bodies: &[u8],
    table: &[u32],
    top: usize,
    handle: u32,
    seen: &mut [u8],
    used: &mut [u8],
    bits: &mut [u64],
) -> Result<usize, Refusal>
    requires room { RoomForMarks table.now (cells_of (length memory.now)) top seen.old used.old }
    requires blank { (length seen.old ≤ block_at (length bits.old)) × Blank bits.old }
    ensures no { number_in result ≡ advance_check (buffers memory.now bodies.now table.now) handle }
    ensures ready { IfOk result (λ given. Ready (buffers memory.now bodies.now table.now) used.new
        × Told (buffers memory.now bodies.now table.now) top given seen.new bits.new) }
{
    let sound = store_check(memory.len(), bodies.len(), table, top, seen, used)?;
    innermost_check(table, handle)?;
    let given = entries_check(memory, bodies, &sound, seen, bits)?;
    Ok(given)
}

// ---- the entries that advance, in the order of their cells

// Notes for each group with a bit how many bits there are up to its end, at its block. Returns how many there are. No group from `groups` on has
// a bit. Groups without a block are passed over; one that is not has the number of block 0, which has no bit.
fn count_groups(seen: &[u8], bits: &[u64], groups: usize, ends: &mut [u16]) -> usize
    requires room { BlockBits seen.now bits.now × (length ends.old ≡ length bits.now) }
    requires inside { (groups ≤ max_groups) × Inside (group_at groups) (by_group seen.now bits.now) }
    requires few { count max_cells (has_bit seen.now bits.now) ≤ max_slots }
    ensures counted { result ≡ count max_cells (has_bit seen.now bits.now) }
    ensures noted { Ends (by_group seen.now bits.now) max_groups (by_group seen.now ends.new) }
{
    let directory = Directory { seen };
    let mut n: usize = 0;
    let mut g = directory.past_blank(0, groups);
    // stays: no plainer as a `for`, since the next group is not the next number but where `past_blank` ends.
    while g < groups {
        let b = directory.block_of(g);
        n += bits[b].count_ones() as usize;
        ends[b] = n as u16;
        g = directory.past_blank(g + 1, groups);
    }
    n
}

// How many bits there are before that of a cell, which is set: those up to the end of its group less those from its own on.
fn rank_of(seen: &[u8], bits: &[u64], ends: &[u16], cell: usize) -> usize
    requires sized { BlockBits seen.now bits.now × (length ends.now ≡ length bits.now) }
    requires noted { Ends (by_group seen.now bits.now) max_groups (by_group seen.now ends.now) }
    requires here { has_bit seen.now bits.now cell ≡ true }
    ensures { (result ≡ count cell (has_bit seen.now bits.now)) × (result < count max_cells (has_bit seen.now bits.now)) }
{
    let directory = Directory { seen };
    let b = directory.block_of(group_of(cell));
    ends[b] as usize - (bits[b] >> (cell % GROUP_SIZE)).count_ones() as usize
}

// Puts slot i into the list if its entry advances, at the rank of its cell.
fn list_slot(
    entries: &Entries<'_>,
    live: u32,
    i: usize,
    seen: &[u8],
    bits: &[u64],
    ends: &[u16],
    places: &mut [u16],
)
    requires small { i < entries.now.slots }
    requires sized { BlockBits seen.now bits.now × (length ends.now ≡ length bits.now) }
    requires noted { Ends (by_group seen.now bits.now) max_groups (by_group seen.now ends.now) }
    requires room { count max_cells (has_bit seen.now bits.now) ≤ length places.old }
    ensures { places.new ≡ list_slot live (has_bit seen.now bits.now) (word1 entries.now.slots entries.now.words.now i) i places.old }
{
    let word = entries.first_word(i);
    if !turns(seen, bits, word, live) {
        return;
    }
    places[rank_of(seen, bits, ends, cell_of(word))] = i as u16;
}

// Lists the slots of all entries that advance, in the order of their cells. Returns how many there are.
fn list_slots(
    entries: &Entries<'_>,
    groups: usize,
    seen: &[u8],
    bits: &[u64],
    ends: &mut [u16],
    places: &mut [u16],
) -> usize
    requires sized { BlockBits seen.now bits.now × (length ends.old ≡ length bits.now) }
    requires inside { (groups ≤ max_groups) × Inside (group_at groups) (by_group seen.now bits.now) }
    requires room { count max_cells (has_bit seen.now bits.now) ≤ min max_slots (length places.old) }
    requires once { CellsOnce entries.now.slots entries.now.words.now entries.now.slots × (1 ≤ live entries.now.words.now) }
    ensures counted { result ≡ count max_cells (has_bit seen.now bits.now) }
    ensures listed { ListedSlots entries.now.slots entries.now.words.now (live entries.now.words.now) (has_bit seen.now bits.now) entries.now.slots places.new }
{
    let live = entries.words[LIVE_AT];
    let n = count_groups(seen, bits, groups, ends);
    for i in 0..entries.top {
        list_slot(entries, live, i, seen, bits, ends, places);
    }
    n
}

// ---- the bytes, and the new words of the entries

// Copies the cell of entry i into a body, and stages the entry as a copy with that body.
fn copy_entry<const WORDS: usize, const BITS: usize>(
    memory: &[u8],
    bodies: &mut [u8],
    entries: &Entries<'_>,
    i: usize,
    body: usize,
    staged: &mut Staged<WORDS, BITS>,
    budget: usize,
)
    requires small { (i < entries.now.slots) × (i < group_at BITS) }
    requires inside { (cell_at (cell_in entries.now.slots entries.now.words.now i) + cell_size ≤ length memory.now) × (cell_at body + cell_size ≤ length bodies.old) × (body < max_bodies) }
    ensures copied { bodies.new
        ≡ stores (take budget (cell_plan memory.now (cell_in entries.now.slots entries.now.words.now i) body)) bodies.old }
    ensures staged { Restaged staged.old.words staged.old.changed i (put (as_copy (word1 entries.now.slots entries.now.words.now i)) body)
        staged.new.words staged.new.changed }
{
    let word = entries.first_word(i);
    copy_cell(memory, cell_of(word), bodies, body, budget);
    staged.stage_entry(i, to_copy(word), body as u32);
}

// Copies the cells of the n entries listed into the lowest bodies without a mark, in the order of both, and stages the entries.
fn copy_listed<const WORDS: usize, const BITS: usize>(
    memory: &[u8],
    bodies: &mut [u8],
    entries: &Entries<'_>,
    places: &[u16],
    n: usize,
    used: &[u8],
    staged: &mut Staged<WORDS, BITS>,
    budget: usize,
)
    requires small { (n ≤ entries.now.slots) × (n ≤ length places.now) }
    requires free { (bodies_of (length bodies.old) ≤ max_bodies) × (length used.now ≡ max_bodies) × (n ≤ count (bodies_of (length bodies.old)) (unmarked used.now)) }
    requires listed { InOrder entries.now.slots entries.now.words.now (advances (buffers memory.now bodies.old entries.now.words.now)) n places.now
        × ((r : ℕ) → r < n → cell_at (cell_in entries.now.slots entries.now.words.now (get_or places.now r 0)) + cell_size ≤ length memory.now) }
    requires room { RoomForListed n places.now staged.old.words staged.old.changed }
    requires blank { Stages 0 (λ _. keep) staged.old.words staged.old.changed }
    ensures bytes { bodies.new
        ≡ stores (take budget (gather n (λ r. cell_plan memory.now (cell_in entries.now.slots entries.now.words.now (get_or places.now r 0))
        (nth (bodies_of (length bodies.old)) (unmarked used.now) r)))) bodies.old }
    ensures staged { Stages entries.now.slots (change_to entries.now.slots (bodies_of (length bodies.old)) entries.now.words.now used.now
        (advances (buffers memory.now bodies.old entries.now.words.now)) n)
        staged.new.words staged.new.changed }
{
    let total = bodies_of(bodies.len());
    let mut at: usize = 0;
    for r in 0..n {
        let i = places[r] as usize;
        let body = next_free_body(used, total, at).unwrap();
        let left = budget.saturating_sub(CELL_SIZE * r);
        copy_entry(memory, bodies, entries, i, body, staged, left);
        at = body + 1;
    }
}

// ---- the cells that are given outwards

// Gives the cell of entry i outwards, if the parent lacks it: the words of the entry, one depth further out, are staged for the lowest free slot from
// `at` on. So its body changes owner, and is not copied. Returns where the search for the next free slot begins.
fn give_one<const WORDS: usize, const BITS: usize>(
    entries: &Entries<'_>,
    live: u32,
    seen: &[u8],
    i: usize,
    at: usize,
    staged: &mut Staged<WORDS, BITS>,
) -> usize
    requires small { (i < entries.now.slots) × (at ≤ entries.now.slots) }
    requires held { Kept seen.now × (1 ≤ live) × (live ≤ max_live) × (depth_of (word1 entries.now.slots entries.now.words.now i) ≡ live) }
    requires room { lacks_it seen.now live (word1 entries.now.slots entries.now.words.now i) ≡ true
        → (free_from entries.now.slots entries.now.words.now at < entries.now.slots) × (free_from entries.now.slots entries.now.words.now at < group_at BITS) }
    ensures { GivenOne entries.now.slots entries.now.words.now (lacks_it seen.now live (word1 entries.now.slots entries.now.words.now i)) i at result
        staged.old.words staged.old.changed staged.new.words staged.new.changed }
{
    let word = entries.first_word(i);
    if !parent_lacks(seen, word, live) {
        return at;
    }
    let slot = next_free_slot(entries, at).unwrap();
    staged.stage_entry(slot, move_out(word), entries.second_word(i));
    slot + 1
}

// Of the n entries listed, gives outwards the cells that the parent lacks, `given` of them, in the order of the cells. Most often there is none.
fn give_listed<const WORDS: usize, const BITS: usize>(
    entries: &Entries<'_>,
    places: &[u16],
    n: usize,
    given: usize,
    seen: &[u8],
    staged: &mut Staged<WORDS, BITS>,
)
    requires small { (n ≤ entries.now.slots) × (n ≤ length places.now) }
    requires listed { Givable entries.now.slots entries.now.words.now n given places.now seen.now staged.old.words staged.old.changed }
    ensures { GivenListed entries.now.slots entries.now.words.now n given places.now seen.now
        staged.old.words staged.old.changed staged.new.words staged.new.changed }
{
    if given == 0 {
        return;
    }
    let live = entries.words[LIVE_AT];
    let mut at: usize = 0;
    for r in 0..n {
        at = give_one(entries, live, seen, places[r] as usize, at, staged);
    }
}

// ---- the bytes, and all that is staged, stored

// Copies the cells of the n entries listed, stages these entries and those given outwards, and writes the staged words.
fn store_listed<const WORDS: usize, const BITS: usize>(
    memory: &[u8],
    bodies: &mut [u8],
    table: &mut [u32],
    top: usize,
    places: &[u16],
    n: usize,
    given: usize,
    seen: &[u8],
    used: &[u8],
    budget: usize,
) -> Answer
    requires ready { Ready (buffers memory.now bodies.old table.old) used.now × (length used.now ≡ max_bodies) }
    requires ends { EndsAt (slots_of (length table.old)) table.old top }
    requires listed { InOrder (slots_of (length table.old)) table.old (advances (buffers memory.now bodies.old table.old)) n places.now × (n ≤ length places.now) }
    requires counted { n ≡ count (cells_of (length memory.now)) (advances (buffers memory.now bodies.old table.old)) }
    requires outwards { Outwards (buffers memory.now bodies.old table.old) given seen.now (zeros BITS) }
    requires room { ((r : ℕ) → r < n → get_or places.now r 0 < group_at BITS) × (2 * group_at BITS ≤ WORDS) × (WORDS ≤ 2 * max_slots) }
    ensures { Makes performed budget (buffers memory.now bodies.old table.old)
        (report result) (buffers memory.now bodies.new table.new) }
{
    let mut staged = Staged::<WORDS, BITS>::none();
    let slots = slots_of(table.len());
    let entries = Entries {
        words: table,
        slots,
        top,
    };
    copy_listed(
        memory,
        bodies,
        &entries,
        places,
        n,
        used,
        &mut staged,
        budget,
    );
    give_listed(&entries, places, n, given, seen, &mut staged);
    let left = budget.saturating_sub(CELL_SIZE * n);
    let steps = write_staged(table, slots, &Head::none(), staged.lent(), left);
    answer_of(CELL_SIZE * n + steps, 0, budget)
}

// ---- the call

// Advance once no question refuses it and a cell advances: lists the entries that advance, and stores. What is needed only then is made here, so that
// it can stand where question 4 had its copy of the table, and for as many entries as there may be: where there are few, clearing arrays for the most
// would take longer than all else. No entry from `top` on is in use, so none of these is listed, and what is given outwards takes no slot from
// `top + given` on.
fn store_with<const SLOTS: usize, const WORDS: usize, const BITS: usize>(
    memory: &[u8],
    bodies: &mut [u8],
    table: &mut [u32],
    top: usize,
    given: usize,
    seen: &[u8],
    used: &[u8],
    bits: &[u64],
    ends: &mut [u16],
    budget: usize,
) -> Answer
    requires ready { Ready (buffers memory.now bodies.old table.old) used.now × (length used.now ≡ max_bodies) }
    requires told { Told (buffers memory.now bodies.old table.old) top given seen.now bits.now }
    requires sized { (length ends.old ≡ length bits.now) × (top ≤ SLOTS) × (SLOTS ≤ max_slots) × (top ≤ group_at BITS)
        × (end_of (slots_of (length table.old)) given top ≤ group_at BITS) × (2 * group_at BITS ≤ WORDS) × (WORDS ≤ 2 * max_slots) }
    ensures { Makes performed budget (buffers memory.now bodies.old table.old)
        (report result) (buffers memory.now bodies.new table.new) }
{
    let mut places = [0u16; SLOTS];
    let groups = cells_of(memory.len()).div_ceil(GROUP_SIZE);
    let entries = Entries {
        words: table,
        slots: slots_of(table.len()),
        top,
    };
    let n = list_slots(&entries, groups, seen, bits, ends, &mut places);
    store_listed::<WORDS, BITS>(
        memory, bodies, table, top, &places, n, given, seen, used, budget,
    )
}

// Has no cell a bit?
fn none_set(bits: &[u64]) -> bool
    ensures { result ≡ all (length bits.now) (λ k. eqb (get_or bits.now k 0) 0) }
{
    let mut none = true;
    for number in bits {
        none &= *number == 0;
    }
    none
}

// As many slots as few entries have, and as there can be.
const MANY_SLOTS: usize = 4096;

// Advance once no question refuses it, with room for the numbers of the blocks. Where no cell advances there is nothing to store, and no room is made
// for it.
fn advance_stored(
    memory: &[u8],
    bodies: &mut [u8],
    table: &mut [u32],
    top: usize,
    given: usize,
    seen: &[u8],
    used: &[u8],
    bits: &[u64],
    ends: &mut [u16],
    budget: usize,
) -> Answer
    requires ready { Ready (buffers memory.now bodies.old table.old) used.now × (length used.now ≡ max_bodies) }
    requires told { Told (buffers memory.now bodies.old table.old) top given seen.now bits.now }
    requires sized { length ends.old ≡ length bits.now }
    ensures { Makes performed budget (buffers memory.now bodies.old table.old)
        (report result) (buffers memory.now bodies.new table.new) }
{
    if none_set(bits) {
        return answer_of(0, 0, budget);
    }
    if top + given <= FEW_SLOTS {
        store_with::<FEW_SLOTS, FEW_WORDS, FEW_BITS>(
            memory, bodies, table, top, given, seen, used, bits, ends, budget,
        )
    } else {
        store_with::<MANY_SLOTS, MANY_WORDS, MANY_BITS>(
            memory, bodies, table, top, given, seen, used, bits, ends, budget,
        )
    }
}

// A number for each block that the marks have room for, and block 0.
const FEW_NUMBERS: usize = 65;

const SOME_NUMBERS: usize = 257;

const MANY_NUMBERS: usize = 1025;

// Advance with room for marks in so many bytes, and for two numbers of each of their blocks: clearing those for the most would take longer than all else
// where there are few.
// It is taken into no other function, so that its large frame is made where it begins.
#[inline(never)]
fn advance_with<const BYTES: usize, const NUMBERS: usize>(
    memory: &[u8],
    bodies: &mut [u8],
    table: &mut [u32],
    top: usize,
    handle: u32,
    budget: usize,
) -> Answer
    requires reached { Reached table.old top }
    requires room { (block_at (min top (groups_for (cells_of (length memory.now))) + 1) ≤ BYTES) × (BYTES ≤ block_at NUMBERS) × (BYTES < 100000) × (NUMBERS < 100000) }
    ensures { Makes (advance_call handle) budget (buffers memory.now bodies.old table.old)
        (report result) (buffers memory.now bodies.new table.new) }
{
    let mut seen = [0u8; BYTES];
    let mut used = [0u8; MAX_BODIES];
    let mut bits = [0u64; NUMBERS];
    let mut ends = [0u16; NUMBERS];
    let given = advance_check(
        memory, bodies, table, top, handle, &mut seen, &mut used, &mut bits,
    )?;
    advance_stored(
        memory, bodies, table, top, given, &seen, &used, &bits, &mut ends, budget,
    )
}

// Gives every read-write cell of the innermost domain memory's bytes: as a copy where they are not its value already. Read-only cells keep theirs. The
// next domain out gets each cell that changes and that it lacks, with the old kind, value and label.
pub fn advance(
    memory: &[u8],
    bodies: &mut [u8],
    table: &mut [u32],
    handle: u32,
    budget: usize,
) -> Answer
    ensures made { Makes (advance_call handle) budget (buffers memory.now bodies.old table.old)
        (report result) (buffers memory.now bodies.new table.new) }
    ensures means { Shows (advance_means handle) budget (buffers memory.now bodies.old table.old)
        (report result) (buffers memory.now bodies.new table.new) }
{
    let top = reach_of(table);
    let blocks = blocks_wanted(top, cells_of(memory.len()));
    if blocks <= FEW_BLOCKS {
        advance_with::<FEW_BYTES, FEW_NUMBERS>(memory, bodies, table, top, handle, budget)
    } else if blocks <= SOME_BLOCKS {
        advance_with::<SOME_BYTES, SOME_NUMBERS>(memory, bodies, table, top, handle, budget)
    } else {
        advance_with::<MANY_BYTES, MANY_NUMBERS>(memory, bodies, table, top, handle, budget)
    }
}
