// Words and bytes stored under a budget of steps, and the journal.
//
// A function that stores under a budget makes the first `budget` stores of its plan, and all of them where the budget suffices. Nothing
// asks whether a phase was stopped: the next one is passed what remains, which is 0 then. The budget stays a number of the run down to
// each table word, so that no store is dead to the compiler.
#![tactic(auto)]

ghost use Rattle.std.specs.Prelude.{◌≡◌, ℕ, ◌+◌, ◌-◌, ◌*◌, ◌≤◌, ◌<◌, min, List, length, take, get_or};
ghost use Rattle.words.specs.Layout.{cell_size, max_pairs, max_slots};
ghost use Rattle.words.specs.Stores.{stores};
ghost use Rattle.words.specs.Journal.{Written, pair_plan, apply_plan, publish_plan, finish_plan, journal_steps};
ghost use Rattle.words.specs.Cells.{HasCell, cell_bytes, same_cell, copy_plan, cell_plan, Copied};

pub mod layout;

use layout::{CELL_SIZE, PENDING_AT};
use std::array;

// A word as an index.
pub fn wide(x: u32) -> usize
    ensures { result ≡ x }
{
    x as usize
}

// Do two parts of 64 bytes agree? All of them are compared, so that the compiler can compare many at once.
// stays: `a == b` looks at the first bytes and then calls the library's loop, and took 6.1 ns at two cells that agree where this takes 3.6
pub fn same_bytes(a: &[u8], b: &[u8]) -> bool
    requires { (length a.now ≡ cell_size) × (length b.now ≡ cell_size) }
    ensures { result ≡ same_cell a.now b.now }
{
    let mut same = true;
    for k in 0..CELL_SIZE {
        same &= a[k] == b[k];
    }
    same
}

// Does cell `cell` of one buffer hold what cell `other` of another holds?
// stays: a cell is handed on as the 64 bytes from 64 times its number, so that a buffer has a cell is a fact with a name (`HasCell`) and no type
pub fn same_cell(buffer: &[u8], cell: usize, others: &[u8], other: usize) -> bool
    requires { HasCell buffer.now cell × HasCell others.now other }
    ensures { result ≡ same_cell (cell_bytes buffer.now cell) (cell_bytes others.now other) }
{
    let a = CELL_SIZE * cell;
    let b = CELL_SIZE * other;
    same_bytes(&buffer[a..a + CELL_SIZE], &others[b..b + CELL_SIZE])
}

// A quarter of the 64 bytes of src, from `at` on. The compiler makes one load of it, and of `copy_from_slice` many.
fn quarter_of(src: &[u8], at: usize) -> [u8; 16]
    requires { (at + 16 ≤ cell_size) × (length src.now ≡ cell_size) }
    ensures { (j : ℕ) → j < 16 → get_or result j 0 ≡ get_or src.now (at + j) 0 }
{
    array::from_fn(|j| src[at + j])
}

// Stores a quarter in dst from `at` on: where dst has the bytes of some s up to `at`, and the quarter is the next of s, it then has them up to
// `at + 16`.
#[tactic(auto, using(crate::proofs::Plans::quarter_turn))]
fn put_quarter(quarter: &[u8; 16], dst: &mut [u8], at: usize)
    requires { (at + 16 ≤ cell_size) × (length dst.old ≡ cell_size) }
    ensures { (s d : List ℕ) → ((j : ℕ) → j < 16 → get_or quarter.now j 0 ≡ get_or s (at + j) 0)
        → Copied s d at dst.old → Copied s d (at + 16) dst.new }
{
    for (j, byte) in quarter.iter().enumerate() {
        dst[at + j] = *byte;
    }
}

// Copies a quarter of the 64 bytes of src over dst. It is read before its first byte is stored, so that the compiler moves it at once: it
// cannot where a store might change a byte that is yet to be read.
fn copy_quarter(src: &[u8], dst: &mut [u8], at: usize)
    requires { (at + 16 ≤ cell_size) × (length src.now ≡ cell_size) × (length dst.old ≡ cell_size) }
    ensures { (d : List ℕ) → Copied src.now d at dst.old → Copied src.now d (at + 16) dst.new }
{
    let quarter = quarter_of(src, at);
    put_quarter(&quarter, dst, at);
}

// Copies the 64 bytes of src over those of dst, quarter by quarter, so that the compiler keeps them in rising order.
fn copy_whole(src: &[u8], dst: &mut [u8])
    requires { (length src.now ≡ cell_size) × (length dst.old ≡ cell_size) }
    ensures { Copied src.now dst.old cell_size dst.new }
{
    copy_quarter(src, dst, 0);
    copy_quarter(src, dst, 16);
    copy_quarter(src, dst, 32);
    copy_quarter(src, dst, 48);
}

// Copies the first n of the 64 bytes of src over those of dst, byte by byte.
#[tactic(auto, using(crate::proofs::Plans::copy_turn))]
fn copy_first(src: &[u8], dst: &mut [u8], n: usize)
    requires { (n ≤ cell_size) × (length src.now ≡ cell_size) × (length dst.old ≡ cell_size) }
    ensures { Copied src.now dst.old n dst.new }
{
    for j in 0..n {
        dst[j] = src[j];
    }
}

// Copies the 64 bytes of src over those of dst, at most budget of them.
pub fn copy_bytes(src: &[u8], dst: &mut [u8], budget: usize)
    requires { (length src.now ≡ cell_size) × (length dst.old ≡ cell_size) }
    ensures { dst.new ≡ stores (take budget (copy_plan src.now)) dst.old }
{
    if CELL_SIZE <= budget {
        copy_whole(src, dst);
        return;
    }
    copy_first(src, dst, budget);
}

// Copies cell `from` of src over cell `to` of dst, at most budget bytes of it.
#[tactic(auto, using(crate::proofs::Cells::copy_part))]
pub fn copy_cell(src: &[u8], from: usize, dst: &mut [u8], to: usize, budget: usize)
    requires { HasCell src.now from × HasCell dst.old to }
    ensures { dst.new ≡ stores (take budget (cell_plan src.now from to)) dst.old }
{
    let a = CELL_SIZE * from;
    let b = a + CELL_SIZE;
    let d = CELL_SIZE * to;
    let e = d + CELL_SIZE;
    copy_bytes(&src[a..b], &mut dst[d..e], budget);
}

// Writes one pair, a word's number and its new value, at index i.
pub fn write_pair(table: &mut [u32], i: usize, word: u32, value: u32, budget: usize)
    requires { i + 1 < length table.old }
    ensures { table.new ≡ stores (take budget (pair_plan i word value)) table.old }
{
    if budget == 0 {
        return;
    }
    table[i] = word;
    if budget == 1 {
        return;
    }
    table[i + 1] = value;
}

// Puts p pairs in place and then clears word 6.
// stays: that the pairs are written is a fact with a name (`Written`) and no type: it is of a table that is lent to be changed, and each store ends it
pub fn apply_pending(table: &mut [u32], first: usize, p: usize, budget: usize)
    requires { Written table.old first p }
    ensures { table.new ≡ stores (take budget (apply_plan table.old first p)) table.old }
{
    let n = budget.min(p);
    for j in 0..n {
        let i = first + 2 * j;
        let word = table[i] as usize;
        table[word] = table[i + 1];
    }
    if n < budget {
        table[PENDING_AT] = 0;
    }
}

// Makes p written pairs pending by storing their number in word 6, and then applies them.
#[tactic(auto, using(crate::proofs::Phases::publish_run))]
pub fn publish(table: &mut [u32], first: usize, p: u32, budget: usize)
    requires { Written table.old first p }
    ensures { table.new ≡ stores (take budget (publish_plan table.old first p)) table.old }
{
    if budget == 0 {
        return;
    }
    table[PENDING_AT] = p;
    apply_pending(table, first, p as usize, budget - 1);
}

// After the writing of p pairs under a budget: finishes the journal on what remains of it, and returns the steps of the whole journal uncut.
#[tactic(auto, using(crate::proofs::Phases::finish_none, crate::proofs::Phases::finish_some))]
pub fn finish_journal(table: &mut [u32], first: usize, p: usize, budget: usize) -> usize
    requires { (p ≤ max_pairs max_slots) × (2 * p ≤ budget → Written table.old first p) }
    ensures made { result ≡ journal_steps p }
    ensures words { table.new ≡ stores (take (budget - 2 * p) (finish_plan table.old first p)) table.old }
{
    if p == 0 {
        return 0;
    }
    if budget < 2 * p {
        return 3 * p + 2;
    }
    publish(table, first, p as u32, budget - 2 * p);
    3 * p + 2
}
