// The segments of a list, one after the other in the order of the cells.
ghost use Rattle.std.specs.Prelude.{◌≡◌, ℕ, ◌+◌, ◌<◌, ◌≤◌, true, false, length, EachIndex, MatchOption, IfSome, None};
ghost use Rattle.std.proofs.Props.{props};
ghost use Rattle.ranges.specs.Ranges.{covers};
ghost use Rattle.ranges.specs.Lists.{range_of, Orders, RisingFrom, RisesFrom, lowest_from, turn_behind, LeastOf, Next, NoneLeft};

use crate::Range;
use crate::fitting::Fitting;
use crate::list::is_writable;
use crate::order::{is_rising, number_of};

// Cells from `at` to before `end`, for each of which the list asks the same: the kind and the rule of `range`, the first that names them, and
// whether they may be written.
#[derive(Clone, Copy)]
pub struct Segment {
    pub at: usize,
    pub end: usize,
    pub range: Range,
    pub writable: bool,
}

// The segments of a list from cell `at` on. Where the ranges, put into the order of their first cells, rise (each ends before the next one begins),
// the segments are the ranges, of which so many are passed. Of any other list each is looked for among all ranges.
#[derive(Drop)]
pub struct Segments<'a> {
    pub list: Fitting<'a>,
    pub order: Option<&'a [u32]>,
    pub passed: usize,
    pub at: usize,
    ghost low: { at ≤ list.cells },
    ghost rising: { IfSome order (λ keys. RisingFrom list.ranges.now keys.now passed at) } by { Prim.hlevel props },
}

impl Range {
    // The first cell from `from` on that it names.
    fn lowest_from(&self, from: usize) -> Option<usize>
        ensures { result ≡ lowest_from self.now from }
    {
        let low = from.max(self.first as usize);
        (low < self.end()).then_some(low)
    }

    // The first cell behind `at` at which it begins or ends.
    fn turn_behind(&self, at: usize) -> Option<usize>
        ensures { result ≡ turn_behind self.now at }
    {
        let first = self.first as usize;
        let end = self.end();
        if at < first {
            Some(first)
        } else {
            (at < end).then_some(end)
        }
    }
}

// The lowest cell from `from` on that the list names, or `cells`. All ranges are asked, with no branch on what one answers.
fn next_named(list: &[Range], from: usize, cells: usize) -> usize
    ensures { LeastOf (λ r. lowest_from r from) list.now cells result }
{
    list.iter().fold(cells, |at, r| at.min(r.lowest_from(from).unwrap_or(cells)))
}

// The first range that names the cell, whose kind and rule count.
fn first_naming(list: &[Range], cell: usize) -> Option<usize>
    ensures { MatchOption result (EachIndex list.now (λ i. covers (range_of list.now i) cell ≡ false))
        (λ k. (k < length list.now) × (covers (range_of list.now k) cell ≡ true) × ((i : ℕ) → i < k → covers (range_of list.now i) cell ≡ false)) }
{
    list.iter().position(|r| r.covers(cell))
}

// The lowest cell behind `at` at which a range begins or ends, or `cells`: up to there each range names all cells or none. All ranges are asked.
fn run_end(list: &[Range], at: usize, cells: usize) -> usize
    ensures { LeastOf (λ r. turn_behind r at) list.now cells result }
{
    list.iter().fold(cells, |end, r| end.min(r.turn_behind(at).unwrap_or(cells)))
}

// Of a list that rises in this order, and whose first ranges are passed: the next range.
fn rising_segment(list: &Fitting, order: &[u32], passed: usize) -> Option<Segment>
    requires { Orders (length list.now.ranges.now) order.now }
    ensures { (from : ℕ) → RisingFrom list.now.ranges.now order.now passed from → MatchOption result (NoneLeft list.now.ranges.now from)
        (λ s. Next list.now.cells list.now.ranges.now from s
        × ((passed < length list.now.ranges.now) × RisingFrom list.now.ranges.now order.now (passed + 1) s.end)) }
{
    if list.ranges.len() <= passed {
        return None;
    }
    let range = list.ranges[number_of(order[passed])];
    Some(Segment {
        at: range.first as usize,
        end: range.end(),
        range,
        writable: range.is_writable(),
    })
}

// Of any other list: the lowest cell that is named, with those behind it up to where a range begins or ends, each looked for among all ranges.
fn mixed_segment(list: &Fitting, from: usize) -> Option<Segment>
    ensures { MatchOption result (NoneLeft list.now.ranges.now from) (λ s. Next list.now.cells list.now.ranges.now from s) }
{
    let at = next_named(list.ranges, from, list.cells);
    let first = first_naming(list.ranges, at)?;
    Some(Segment {
        at,
        end: run_end(list.ranges, at, list.cells),
        range: list.ranges[first],
        writable: is_writable(list.ranges, at),
    })
}

impl<'a> Segments<'a> {
    // All segments of a list, of which this is the order. No range is passed yet. An order with no keys but those of the ranges is kept whole, if it is.
    pub fn of(list: Fitting<'a>, order: &'a [u32]) -> Segments<'a>
        requires { Orders (length list.ranges.now) order.now }
        ensures begins { (result.at ≡ 0) × (result.list ≡ list.entry) × (result.passed ≡ 0) }
        ensures whole { length order.now ≡ length list.entry.ranges.now → IfSome result.order (λ keys. RisesFrom list.entry.ranges.now keys.now 0 0) }
    {
        Segments {
            list,
            order: is_rising(list.ranges, order).then_some(order),
            passed: 0,
            at: 0,
        }
    }

    // The segment ahead.
    fn ahead(&self) -> Option<Segment>
        ensures { MatchOption result (NoneLeft self.now.list.ranges.now self.now.at) (λ s. Next self.now.list.cells self.now.list.ranges.now self.now.at s
            × IfSome self.now.order (λ keys. (self.now.passed < length self.now.list.ranges.now)
            × RisingFrom self.now.list.ranges.now keys.now (self.now.passed + 1) s.end)) }
    {
        match self.order {
            Some(order) => rising_segment(&self.list, order, self.passed),
            None => mixed_segment(&self.list, self.at),
        }
    }

    // The next cells that the list names, and what it asks for them. At most one range more is passed.
    pub fn next_segment(&mut self) -> Option<Segment>
        ensures same { (self.new.list ≡ self.old.list) × (self.new.order ≡ self.old.order) }
        ensures next { MatchOption result (NoneLeft self.old.list.ranges.now self.old.at)
            (λ s. Next self.old.list.cells self.old.list.ranges.now self.old.at s × (self.new.at ≡ s.end)) }
        ensures stays { result ≡ None → self.new ≡ self.old }
        ensures counted { self.new.passed ≤ self.old.passed + 1 }
    {
        let segment = self.ahead()?;
        self.passed = self.passed.saturating_add(1);
        self.at = segment.end;
        Some(segment)
    }
}
