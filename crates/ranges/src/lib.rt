// What an add names: a lent list of records, each with first cell, count, kind, rule and label (document 02, A.3).
//
// The list is read where it is lent (`list`), and no table is known here.
//
// A list is stored in the order of the cells and not of the ranges, so it is told in segments: cells that lie beside each other and of which
// the same is asked (`segments`). The ranges are put into the order of their first cells (`order`). Where, so ordered, each ends before the next one
// begins, the segments are the ranges; else each is looked for among all of them.
#![tactic(auto)]

pub mod fitting;
pub mod list;
pub mod order;
pub mod segments;

ghost use Rattle.std.specs.Prelude.{◌≡◌};
ghost use Rattle.ranges.specs.Batch.{batch_ranges, no_batch, kept, gathered};

use arrayvec::ArrayVec;

// What an add names: `count` cells from `first` on, to be held as copies (kind 0), via parent (kind 1) or by a rule (kind 2), which other kinds
// ignore, read-only (label 0) or read-write (label 1). It is the record that C hands over, so that its kind and its label are numbers here, whatever
// C put there; question 7 asks whether they are such.
// stays: kind and label as numbers, the C interface
#[repr(C)]
#[derive(Clone, Copy, Default)]
pub struct Range {
    pub first: u32,
    pub count: u32,
    pub kind: u32,
    pub rule: u32,
    pub label: u32,
}

// A list has at most so many.
pub const MAX_RANGES: usize = 64;

// A batch has one more, so that a list which is too long is told by it.
pub const BATCH_ROOM: usize = 65;

// The first ranges of a list that is gathered one by one: all of them, or 65 where they are more than 64.
// stays: `no_batch`, `keep` with its numbers, and `gather`, which docs/STATEMENTS.md names with `gathered_all` and `gathered_more`
#[derive(Drop)]
pub struct Batch {
    pub ranges: ArrayVec<Range, BATCH_ROOM>,
}

pub fn no_batch() -> Batch
    ensures { batch_ranges result ≡ no_batch }
{
    Batch {
        ranges: ArrayVec::new(),
    }
}

// One range more. Of more than 65 it keeps the first.
pub fn keep(mut batch: Batch, first: u32, count: u32, kind: u32, rule: u32, label: u32) -> Batch
    ensures { batch_ranges result ≡ kept (batch_ranges batch) first count kind rule label }
{
    if batch.ranges.len() < BATCH_ROOM {
        batch.ranges.push(Range {
            first,
            count,
            kind,
            rule,
            label,
        });
    }
    batch
}

// The ranges of a lent list, for a call that is handed a batch.
pub fn gather(ranges: &[Range]) -> Batch
    ensures { batch_ranges result ≡ gathered no_batch ranges.now }
{
    let mut batch = no_batch();
    for range in ranges {
        batch = keep(
            batch,
            range.first,
            range.count,
            range.kind,
            range.rule,
            range.label,
        );
    }
    batch
}
