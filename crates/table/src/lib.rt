// The table's rule: questions 1, 2 and 4 of document 01, for a table of any contents. Questions 1 and 2 stand here, question 4 in `passes`.
#![tactic(auto)]

pub mod domains;
pub mod fields;
pub mod free;
pub mod journal;
pub mod lent;
pub mod passes;

ghost use Rattle.std.specs.Prelude.{◌≡◌, true, ℕ, ◌+◌, ◌<◌, ◌≤◌, length, take};
ghost use Rattle.words.specs.Layout.{pairs_at, table_words, max_slots, max_bodies, max_live, handle_at};
ghost use Rattle.words.specs.Stores.{stores};
ghost use Rattle.words.specs.Journal.{pair_plans, pending};
ghost use Rattle.table.specs.Changes.{put, entry_stores};
ghost use Rattle.table.specs.Entry.{word1, word2};
ghost use Rattle.table.specs.Checks.{lengths_ok, header_ok};
ghost use Rattle.table.specs.Rule.{table_ok};
ghost use Rattle.marks.specs.Blocks.{Room};
ghost use Rattle.table.specs.Marks.{zeros, Blank, EndsAt, Reaches, Reached, AllMarked};

use lent::Entries;
use words::layout::{
    BODIES_AT, CELLS_AT, MAGIC, MAGIC_AT, MAX_BODIES, MAX_CELLS, MAX_SLOTS, SLOTS_AT, ZERO_AT,
    bodies_of, cell_at, cells_of, first_at, second_at, slots_of, table_words,
};
use words::wide;

// So many entry slots count as few: what a call needs for them is cleared in no time.
pub const FEW_SLOTS: usize = 256;

// ---- questions 1 and 2

// Are the three lengths allowed?
pub fn lengths_ok(memory: usize, bodies: usize, table: usize) -> bool
    ensures { result ≡ lengths_ok memory bodies table }
{
    let m = cells_of(memory);
    let b = bodies_of(bodies);
    let e = slots_of(table);
    (((1 <= m) & (m <= MAX_CELLS)) & (memory == cell_at(m)))
        & ((((1 <= b) & (b <= MAX_BODIES)) & (bodies == cell_at(b)))
            & (((1 <= e) & (e <= MAX_SLOTS)) & (table == table_words(e))))
}

// Are words 0 to 3 and 7 right for buffers with so many bytes?
pub fn header_ok(memory: usize, bodies: usize, table: &[u32]) -> bool
    requires { handle_at max_live ≤ length table.now }
    ensures { result ≡ header_ok memory bodies table.now }
{
    let slots = slots_of(table.len());
    (table[MAGIC_AT] == MAGIC)
        & ((wide(table[CELLS_AT]) == cells_of(memory))
            & ((wide(table[SLOTS_AT]) == slots)
                & ((wide(table[BODIES_AT]) == bodies_of(bodies)) & (table[ZERO_AT] == 0))))
}

// ---- how far question 4 passes

// How many entries question 4 passes: those up to the last in use; all of them where pairs are pending, which may fill others. It is asked before
// any question, of a table of any length, since it says how much room for marks the call needs.
pub fn reach_of(table: &[u32]) -> usize
    ensures { Reached table.now result }
{
    Entries::reached(table).map_or(0, |entries| entries.top)
}

// ---- forms that callers still use

// Question 4 of a table with no pending pairs, which is its own meaning: no copy is made, and the marks are its own. `top` is how far to pass.
pub fn idle_ok(
    table: &[u32],
    cells: usize,
    slots: usize,
    top: usize,
    bodies: usize,
    seen: &mut [u8],
    used: &mut [u8],
) -> bool
    requires sizes { (slots ≤ max_slots) × (length table.now ≡ table_words slots) × (bodies ≤ max_bodies) × EndsAt slots table.now top
        × Room top cells seen.old × (bodies ≤ length used.old) }
    requires blank { Blank seen.old × Blank used.old × (pending table.now ≡ 0) }
    ensures value { result ≡ table_ok cells slots bodies table.now }
    ensures marks { result ≡ true → AllMarked slots table.now seen.new used.new }
{
    let entries = Entries {
        words: table,
        slots,
        top,
    };
    passes::idle_ok(&entries, cells, bodies, seen, used)
}

// Question 4: is the table right, pending pairs included?
pub fn table_ok(
    table: &[u32],
    cells: usize,
    slots: usize,
    top: usize,
    bodies: usize,
    seen: &mut [u8],
    used: &mut [u8],
) -> bool
    requires sizes { (slots ≤ max_slots) × (length table.now ≡ table_words slots) × (bodies ≤ max_bodies) × Reaches slots table.now top
        × Room top cells seen.old × (bodies ≤ length used.old) }
    requires blank { Blank seen.old × Blank used.old }
    ensures { result ≡ table_ok cells slots bodies table.now }
{
    let entries = Entries {
        words: table,
        slots,
        top,
    };
    passes::table_ok(&entries, cells, bodies, seen, used)
}

// Writes the two pairs that give entry i two new words, at index `at`.
pub fn write_entry(
    table: &mut [u32],
    slots: usize,
    at: usize,
    i: usize,
    first: u32,
    second: u32,
    budget: usize,
)
    requires { (i < slots) × (slots ≤ max_slots) × (at + 3 < length table.old) }
    ensures { table.new ≡ stores (take budget (pair_plans at (entry_stores slots i (put first second)))) table.old }
{
    journal::write_entry(table, slots, at, i, (first, second), budget);
}
