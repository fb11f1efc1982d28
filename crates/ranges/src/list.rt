// What a lent list of ranges asks, read off its ranges where they stand.
ghost use Rattle.std.specs.Prelude.{◌≡◌, ℕ, ◌<◌, ◌≤◌, true, false, length, take, EachIndex, MatchOption, eqb};
ghost use Rattle.ranges.specs.Ranges.{covers, named, label_for};
ghost use Rattle.ranges.specs.Lists.{range_end, range_of, Apart};

use crate::Range;

// The label of a range that makes its cells read-write.
const READ_WRITE: u32 = 1;

impl Range {
    // The cell behind its last one.
    pub fn end(&self) -> usize
        ensures { result ≡ range_end self.now }
    {
        self.first as usize + self.count as usize
    }

    // Does it name the cell? A cell before its first is very far behind it modulo 2^64, so that one comparison tells, and a loop over the ranges
    // has one branch for each.
    pub fn covers(&self, cell: usize) -> bool
        ensures { result ≡ covers self.now cell }
    {
        cell.wrapping_sub(self.first as usize) < self.count as usize
    }

    // Does it make the cells that it names read-write?
    pub fn is_writable(&self) -> bool
        ensures { result ≡ eqb self.now.label 1 }
    {
        self.label == READ_WRITE
    }

    // Does it share a cell with another?
    fn meets(&self, other: &Range) -> bool
        ensures { result ≡ false → Apart self.now other.now }
    {
        ((self.first as usize) < other.end()) & ((other.first as usize) < self.end())
    }
}

// Does a range of the list name the cell?
pub fn is_named(list: &[Range], cell: usize) -> bool
    ensures { result ≡ named list.now cell }
{
    list.iter().any(|r| r.covers(cell))
}

// Does a range that names the cell make it read-write?
pub fn is_writable(list: &[Range], cell: usize) -> bool
    ensures { result ≡ eqb (label_for list.now cell) 1 }
{
    list.iter().any(|r| r.covers(cell) & r.is_writable())
}

// The last range of the list that shares a cell with another one.
fn last_met(list: &[Range], range: &Range) -> Option<usize>
    ensures { MatchOption result (EachIndex list.now (λ j. Apart (range_of list.now j) range.now))
        (λ k. (k < length list.now) × ((j : ℕ) → k < j → j < length list.now → Apart (range_of list.now j) range.now)) }
{
    list.iter().rposition(|r| r.meets(range))
}

// Those of the ranges before the i-th that must be asked whether they name one of its cells: the first ones, up to the last that shares one with
// it. In most lists none does, and then no cell of it needs to be asked about. More than needed costs time alone.
pub fn earlier(list: &[Range], i: usize) -> &[Range]
    requires { i < length list.now }
    ensures first { (length result.now ≤ i) × (result.now ≡ take (length result.now) list.now) }
    ensures asked { (c : ℕ) → covers (range_of list.now i) c ≡ true → named result.now c ≡ named (take i list.now) c }
{
    match last_met(&list[..i], &list[i]) {
        Some(k) => &list[..k + 1],
        None => &[],
    }
}
