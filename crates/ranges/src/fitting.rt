// A list of ranges that an add may take.
ghost use Rattle.std.specs.Prelude.{◌≤◌, length};
ghost use Rattle.ranges.specs.Ranges.{max_ranges};
ghost use Rattle.ranges.specs.Lists.{Within, NoneEmpty};

use crate::Range;

// A list that questions 20 and 8 let pass for a memory of so many cells: there are at most 64 ranges, none is empty, and each lies within memory.
#[derive(Clone, Copy)]
pub struct Fitting<'a> {
    pub ranges: &'a [Range],
    pub cells: usize,
    ghost few: { length ranges.now ≤ max_ranges },
    ghost within: { Within cells ranges.now },
    ghost filled: { NoneEmpty ranges.now },
}
