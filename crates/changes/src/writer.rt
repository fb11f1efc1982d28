// The one writer of staged changes: it stores them by the journal, in rising order of word number, under the budget.
ghost use Rattle.std.specs.Prelude.{◌≡◌, true, ℕ, ◌+◌, ◌*◌, ◌≤◌, ◌<◌, ◌++◌, length, take, slice_index};
ghost use Rattle.words.specs.Layout.{table_words, max_slots, group_size, group_at};
ghost use Rattle.words.specs.Stores.{stores};
ghost use Rattle.words.specs.Journal.{pair_plans};
ghost use Rattle.table.specs.Changes.{entry_changes};
ghost use Rattle.changes.specs.Head.{head_stores, head_count};
ghost use Rattle.changes.specs.Staged.{bit_at, staged as staged_at, Inside, group, Journaled};

use crate::head_words::Head;
use crate::staged::Lent;
use table::write_entry;
use words::layout::{GROUP_SIZE, pairs_at};
use words::{finish_journal, write_pair};

// Writes the pairs of the head's words from index `at` on.
fn write_head(table: &mut [u32], at: usize, head: &Head, budget: usize)
    requires { at + 2 * head_count head.now ≤ length table.old }
    ensures { table.new ≡ stores (take budget (pair_plans at (head_stores head.now))) table.old }
{
    for (j, word) in head.words[..head.count].iter().enumerate() {
        write_pair(
            table,
            at + 2 * j,
            word.0,
            word.1,
            budget.saturating_sub(2 * j),
        );
    }
}

// Writes the pairs of the entries of group k that are staged, from set bit to set bit. Returns the number of pairs.
fn write_group(
    table: &mut [u32],
    slots: usize,
    at: usize,
    k: usize,
    staged: Lent<'_>,
    budget: usize,
) -> usize
    requires small { (slots ≤ max_slots) × (k < length staged.changed.now) }
    requires inside { (j : ℕ) → j < group_size → bit_at (slice_index staged.changed.now k) j ≡ true → group_at k + j < slots }
    requires room { at + 2 * length (group slots (group_at k) (slice_index staged.changed.now k) staged.words.now) ≤ length table.old }
    ensures counted { result ≡ length (group slots (group_at k) (slice_index staged.entry.changed.now k) staged.entry.words.now) }
    ensures words { table.new ≡ stores (take budget (pair_plans at (group slots (group_at k) (slice_index staged.entry.changed.now k) staged.entry.words.now))) table.old }
{
    let mut n: usize = 0;
    let mut rest = staged.changed[k];
    // stays: the set bits of a number are walked by its trailing zeros, a form that the project names.
    while rest != 0 {
        let i = GROUP_SIZE * k + rest.trailing_zeros() as usize;
        write_entry(
            table,
            slots,
            at + 2 * n,
            i,
            staged.words[2 * i],
            staged.words[2 * i + 1],
            budget.saturating_sub(2 * n),
        );
        n += 2;
        rest &= rest - 1;
    }
    n
}

// Writes the pairs of all staged entries from index `at` on, and returns their number. There may be fewer bits than slots: a call clears bits
// and words for as many entries as it may change, and an entry behind them stays.
fn write_entries(
    table: &mut [u32],
    slots: usize,
    at: usize,
    staged: Lent<'_>,
    budget: usize,
) -> usize
    requires small { slots ≤ max_slots }
    requires inside { Inside slots staged.changed.now }
    requires room { at + 4 * slots ≤ length table.old }
    ensures counted { result ≡ length (entry_changes slots (staged_at staged.entry.words.now staged.entry.changed.now)) }
    ensures words { table.new ≡ stores (take budget (pair_plans at (entry_changes slots (staged_at staged.entry.words.now staged.entry.changed.now)))) table.old }
{
    let mut n: usize = 0;
    for k in 0..slots.div_ceil(GROUP_SIZE).min(staged.changed.len()) {
        n += write_group(
            table,
            slots,
            at + 2 * n,
            k,
            staged,
            budget.saturating_sub(2 * n),
        );
    }
    n
}

// Stores the head's words by the journal, under the budget, and returns the steps of the whole journal uncut.
pub fn write_head_words(table: &mut [u32], slots: usize, head: &Head, budget: usize) -> usize
    requires { (slots ≤ max_slots) × (length table.old ≡ table_words slots) }
    ensures { Journaled slots (head_stores head.now) budget table.old result table.new }
{
    let at = pairs_at(slots);
    let heads = head.count;
    write_head(table, at, head, budget);
    finish_journal(table, at, heads, budget)
}

// Stores what is staged by the journal, under the budget, and returns the steps of the whole journal uncut.
pub fn write_staged(
    table: &mut [u32],
    slots: usize,
    head: &Head,
    staged: Lent<'_>,
    budget: usize,
) -> usize
    requires small { (slots ≤ max_slots) × (length table.old ≡ table_words slots) }
    requires inside { Inside slots staged.changed.now }
    ensures { Journaled slots (head_stores head.now ++ entry_changes slots (staged_at staged.entry.words.now staged.entry.changed.now)) budget
        table.old result table.new }
{
    let at = pairs_at(slots);
    let heads = head.count;
    write_head(table, at, head, budget);
    let n = write_entries(
        table,
        slots,
        at + 2 * heads,
        staged,
        budget.saturating_sub(2 * heads),
    );
    finish_journal(table, at, heads + n, budget)
}
