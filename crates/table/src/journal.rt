// The pairs of a table's journal: are those that are pending right, and what do they mean; and the pairs of an entry that changes.
ghost use Rattle.std.specs.Prelude.{◌≡◌, ℕ, ◌+◌, ◌*◌, ◌<◌, ◌≤◌, length, get_or, take};
ghost use Rattle.words.specs.Layout.{table_words, max_slots};
ghost use Rattle.words.specs.Stores.{stores};
ghost use Rattle.words.specs.Journal.{name_ok, names_ok, pairs, pair_plans};
ghost use Rattle.table.specs.Changes.{put, entry_stores};
ghost use Rattle.table.specs.Rule.{pairs_ok};

use words::layout::{
    LIVE_AT, NEXT_AT, PENDING_AT, first_at, handle_at, max_pairs, pairs_at, second_at,
};
use words::{wide, write_pair};

// May a pair name this word?
fn name_ok(first: usize, word: usize) -> bool
    ensures { result ≡ name_ok first word }
{
    ((word == LIVE_AT) | (word == NEXT_AT)) | ((handle_at(0) <= word) & (word < first))
}

// Do so many pairs from word `first` on name words that they may, strictly rising?
fn names_ok(table: &[u32], first: usize, count: usize) -> bool
    requires { first + 2 * count ≤ length table.now }
    ensures { result ≡ names_ok first 0 (pairs table.now first count) }
{
    let mut last: usize = 0;
    for j in 0..count {
        let word = wide(table[first + 2 * j]);
        if !name_ok(first, word) {
            return false;
        }
        if word <= last {
            return false;
        }
        last = word;
    }
    true
}

// Are the pending pairs right?
pub fn pairs_ok(table: &[u32], slots: usize) -> bool
    requires { (slots ≤ max_slots) × (length table.now ≡ table_words slots) }
    ensures { result ≡ pairs_ok slots table.now }
{
    let count = wide(table[PENDING_AT]);
    if max_pairs(slots) < count {
        return false;
    }
    names_ok(table, pairs_at(slots), count)
}

// Puts so many pairs in place in a copy of the words in front of them.
pub fn put_pairs(table: &[u32], first: usize, count: usize, copy: &mut [u32])
    requires sizes { (first + 2 * count ≤ length table.now) × (first ≤ length copy.old) }
    requires pairs { ((j : ℕ) → j < count → get_or table.now (first + 2 * j) 0 < first) × ((k : ℕ) → k < first → get_or copy.old k 0 ≡ get_or table.now k 0) }
    ensures { (k : ℕ) → k < first → get_or copy.new k 0 ≡ get_or (stores (pairs table.now first count) table.now) k 0 }
{
    for j in 0..count {
        let at = first + 2 * j;
        copy[wide(table[at])] = table[at + 1];
    }
}

// Writes the two pairs that give entry i two new words, at index `at`.
pub fn write_entry(
    table: &mut [u32],
    slots: usize,
    at: usize,
    i: usize,
    words: (u32, u32),
    budget: usize,
)
    requires { (i < slots) × (slots ≤ max_slots) × (at + 3 < length table.old) }
    ensures { table.new ≡ stores (take budget (pair_plans at (entry_stores slots i (put words.0 words.1)))) table.old }
{
    let (first, second) = words;
    write_pair(table, at, first_at(slots, i) as u32, first, budget);
    write_pair(
        table,
        at + 2,
        second_at(slots, i) as u32,
        second,
        budget.saturating_sub(2),
    );
}
