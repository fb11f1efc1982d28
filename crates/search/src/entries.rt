// The search for an entry by its depth and its cell.
ghost use Rattle.std.specs.Prelude.{◌≡◌, ℕ, ◌+◌, ◌<◌, ◌≤◌, true, false, MatchOption};
ghost use Rattle.table.specs.Entry.{word1, find_in};
ghost use Rattle.table.specs.Marks.{CellsOnce};
ghost use Rattle.search.specs.Search.{IsKey, named_by, Unnamed, Found};

use crate::key::Key;
use table::lent::Entries;

// The key of a depth and a cell; none where no word can hold them, so that none of these words is an entry of theirs.
fn key_in(words: &[u32], depth: u32, cell: u32) -> Option<Key>
    ensures { MatchOption result ((e : ℕ) → find_in e words.now depth cell ≡ e) (λ key. IsKey depth cell key.word) }
{
    if (16 <= depth) | (65536 <= cell) {
        return None;
    }
    Some(Key::of(depth, cell))
}

// Is one of the four entries from `i` on named? All four are asked, with no branch.
fn four_named(entries: &Entries<'_>, key: Key, i: usize) -> bool
    requires { i + 4 ≤ entries.now.slots }
    ensures { result ≡ false → Unnamed entries.now.slots entries.now.words.now key.word i (i + 4) }
{
    let a = key.names(entries.first_word(i));
    let b = key.names(entries.first_word(i + 1));
    let c = key.names(entries.first_word(i + 2));
    let d = key.names(entries.first_word(i + 3));
    (a | b) | (c | d)
}

// How far the entries from `from` on and before `end` can be passed over eight at a time, since none of them is named: a search of a long table
// spends nearly all its time here. There is one such loop, which is not copied into its callers.
#[inline(never)]
fn pass_eights(entries: &Entries<'_>, key: Key, from: usize, end: usize) -> usize
    requires { (from ≤ end) × (end ≤ entries.now.slots) }
    ensures { (from ≤ result) × (result ≤ end) × Unnamed entries.now.slots entries.now.words.now key.word from result }
{
    let eights = (end - from) / 8;
    for k in 0..eights {
        let i = from + 8 * k;
        if four_named(entries, key, i) | four_named(entries, key, i + 4) {
            return i;
        }
    }
    from + 8 * eights
}

// How far the entries from `from` on and before `end` can be passed over, since none of them is named. The first is asked alone, since a place to
// begin at is mostly right.
pub fn pass_over(entries: &Entries<'_>, key: Key, from: usize, end: usize) -> usize
    requires { (from ≤ end) × (end ≤ entries.now.slots) }
    ensures { (from ≤ result) × (result ≤ end) × Unnamed entries.now.slots entries.now.words.now key.word from result }
{
    if from == end {
        return end;
    }
    if key.names(entries.first_word(from)) {
        return from;
    }
    pass_eights(entries, key, from, end)
}

// Where a search of the slots before `top` begins: at the slot asked for, or at the first where that is none of them.
pub fn start_at(top: usize, begin: usize) -> usize
    ensures { result ≤ top }
{
    if begin < top { begin } else { 0 }
}

// The first entry from `from` on and before `end` that is named.
fn find_named(entries: &Entries<'_>, key: Key, from: usize, end: usize) -> Option<usize>
    requires { (from ≤ end) × (end ≤ entries.now.slots) }
    ensures { MatchOption result (Unnamed entries.now.slots entries.now.words.now key.word from end)
        (λ i. (i < end) × (named_by key.word (word1 entries.now.slots entries.now.words.now i) ≡ true)) }
{
    for i in pass_over(entries, key, from, end)..end {
        if key.names(entries.first_word(i)) {
            return Some(i);
        }
    }
    None
}

// The entry of this depth and cell. A depth or a cell that no word can hold has none. The search begins at slot `begin`, which may be any number,
// and goes on from the front: no depth has a cell twice, so that it finds the same entry wherever it begins, and a good place only saves time. It
// ends at the last entry in use. It is copied into the one search that calls it.
#[inline(always)]
pub fn find_entry(entries: &Entries<'_>, depth: u32, cell: u32, begin: usize) -> Option<usize>
    requires depth { 1 ≤ depth }
    requires once { CellsOnce entries.now.slots entries.now.words.now entries.now.slots }
    ensures { Found entries.now.slots (find_in entries.now.slots entries.now.words.now depth cell) result }
{
    let key = key_in(entries.words, depth, cell)?;
    let start = start_at(entries.top, begin);
    if let Some(i) = find_named(entries, key, start, entries.top) {
        return Some(i);
    }
    find_named(entries, key, 0, start)
}
