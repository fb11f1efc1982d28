// The search inwards for the first holder of a cell, and the value behind it: its own, or for via parent the one at the end of the chain outwards.
ghost use Rattle.std.specs.Prelude.{◌≡◌, ◌<◌, ◌≤◌};
ghost use Rattle.table.specs.Entry.{word1, word2, depth_of, cell_of};
ghost use Rattle.table.specs.Marks.{CellsOnce};
ghost use Rattle.search.specs.Search.{HasSource, source_in, Found};
ghost use Rattle.search.specs.Holders.{holder_in, value_of, value_from};

use crate::entries::{find_entry, pass_over, start_at};
use crate::key::Key;
use crate::notes::Noted;
use table::domains::parent_of;
use table::fields::{cell_of, depth_of, is_pattern, is_via};
use table::lent::{Entries, Sound};
use words::layout::LIVE_AT;

// The first holder of a cell in a search inwards: its depth and its entry.
#[derive(Clone, Copy, PartialEq, Eq, Debug)]
pub struct Holder {
    pub depth: u32,
    pub entry: usize,
}

// The value of an entry that has one of its own: the number of its body, or of its rule.
#[derive(Clone, Copy, PartialEq, Eq, Debug)]
pub enum Value {
    Body(u32),
    Rule(u32),
}

// What the first holder of a cell has of it: the holder's depth, and the value at the end of its chain.
#[derive(Clone, Copy, PartialEq, Eq, Debug)]
pub struct Held {
    pub depth: u32,
    pub value: Value,
}

// The first holder of a cell from this depth to the innermost. At each depth the search begins at slot `begin`, which may be any number, and
// goes on from the front. It is copied into its callers, since a holder handed back through memory takes a fifth of a search that begins well.
#[inline(always)]
pub fn find_holder(table: &Sound<'_>, from: u32, cell: u32, begin: usize) -> Option<Holder>
    requires { 1 ≤ from }
    ensures { result ≡ holder_in table.now.entries.slots table.now.entries.words.now from cell }
{
    if 65536 <= cell {
        return None;
    }
    let entries = &table.entries;
    let live = entries.words[LIVE_AT];
    let start = start_at(entries.top, begin);
    // stays: the search for a holder is nested loops over depths and entries, left by a label with the holder found (a named form)
    'search: {
        for depth in from..live + 1 {
            let key = Key::of(depth, cell);
            for i in pass_over(entries, key, start, entries.top)..entries.top {
                if key.names(entries.first_word(i)) {
                    break 'search Some(Holder { depth, entry: i });
                }
            }
            for j in pass_over(entries, key, 0, start)..start {
                if key.names(entries.first_word(j)) {
                    break 'search Some(Holder { depth, entry: j });
                }
            }
        }
        None
    }
}

// The entry of the copy or the rule behind the cell held at this depth: outwards past the via parent entries. The notes of places to begin at may
// be wrong.
pub fn find_source(entries: &Entries<'_>, depth: u32, cell: u32, notes: Noted<'_>) -> Option<usize>
    requires { CellsOnce entries.now.slots entries.now.words.now entries.now.slots }
    ensures { Found entries.now.slots (source_in entries.now.slots entries.now.words.now depth cell) result }
{
    for d in (1..=depth).rev() {
        let i = find_entry(entries, d, cell, notes.begin_at(entries, d, cell))?;
        if !is_via(entries.first_word(i)) {
            return Some(i);
        }
    }
    None
}

// The entry that has the value of entry i, which is in use: itself, or for via parent the one at the end of the chain outwards. It is copied into
// its callers, since mostly there is nothing to search for.
#[inline(always)]
pub fn source_of(table: &Sound<'_>, i: usize, notes: Noted<'_>) -> Option<usize>
    requires slot { i < table.now.entries.slots }
    requires used { 1 ≤ depth_of (word1 table.now.entries.slots table.now.entries.words.now i) }
    ensures { let w = word1 table.now.entries.slots table.now.entries.words.now i in
        Found table.now.entries.slots (source_in table.now.entries.slots table.now.entries.words.now (depth_of w) (cell_of w)) result }
{
    let word = table.entries.first_word(i);
    if !is_via(word) {
        return Some(i);
    }
    find_source(
        &table.entries,
        parent_of(depth_of(word)),
        cell_of(word) as u32,
        notes,
    )
}

// The value of entry i, which has one of its own.
pub fn value_at(entries: &Entries<'_>, i: usize) -> Value
    requires { i < entries.now.slots }
    ensures { result ≡ value_of (word1 entries.now.slots entries.now.words.now i) (word2 entries.now.slots entries.now.words.now i) }
{
    let second = entries.second_word(i);
    if is_pattern(entries.first_word(i)) {
        Value::Rule(second)
    } else {
        Value::Body(second)
    }
}

// What the first holder of a cell, from this depth to the innermost, has of it; with notes of places to begin at.
pub fn find_value(table: &Sound<'_>, from: u32, cell: u32, notes: Noted<'_>) -> Option<Held>
    requires depth { 1 ≤ from }
    requires source { HasSource table.now.entries.slots table.now.entries.words.now from cell }
    ensures { result ≡ value_from table.now.entries.slots table.now.entries.words.now from cell }
{
    let entries = &table.entries;
    let holder = find_holder(table, from, cell, notes.begin_at(entries, from, cell))?;
    let source = source_of(table, holder.entry, notes)?;
    Some(Held {
        depth: holder.depth,
        value: value_at(entries, source),
    })
}
