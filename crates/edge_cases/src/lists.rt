// The lists of section 900.
use crate::acts::Kind::*;
use crate::acts::Label::*;
use crate::acts::Listed::*;
use crate::acts::{Cells, Listed};

// Cell 0, 1 and so on; both of the first two; five of nine, and the other four with one of these.
const CELL_0: Cells = Cells(0, 1);

const CELL_1: Cells = Cells(1, 1);

const CELL_2: Cells = Cells(2, 1);

const CELL_3: Cells = Cells(3, 1);

const BOTH: Cells = Cells(0, 2);

const FIVE: Cells = Cells(0, 5);

const FOUR_MORE: Cells = Cells(4, 5);

pub const NONE: &[Listed] = &[];

pub const ONE: &[Listed] = &[Once(Cells(1, 2), Copied, ReadWrite)];

// 64 ranges, 65, 65 of a kind that there is not, and 320.
pub const FULL: &[Listed] = &[
    Times(63, CELL_0, Copied, ReadOnly),
    Once(CELL_1, Copied, ReadWrite),
];

pub const OVER: &[Listed] = &[
    Times(64, CELL_0, Copied, ReadOnly),
    Once(CELL_1, Copied, ReadWrite),
];

pub const OVER_KIND: &[Listed] = &[Times(65, CELL_0, OtherKind(3, 0), ReadOnly)];

pub const LONG: &[Listed] = &[
    Times(254, CELL_0, Copied, ReadOnly),
    Times(66, CELL_1, Copied, ReadOnly),
];

// Cell 0 by copy and by rule: raised by the second range, or read-write by the first.
pub const COPY_RAISED: &[Listed] = &[
    Once(CELL_0, Copied, ReadOnly),
    Once(CELL_0, ByRule(0), ReadWrite),
];

pub const RULE_RAISED: &[Listed] = &[
    Once(CELL_0, ByRule(0), ReadOnly),
    Once(CELL_0, Copied, ReadWrite),
];

pub const COPY_FIRST: &[Listed] = &[
    Once(CELL_0, Copied, ReadWrite),
    Once(CELL_0, ByRule(0), ReadOnly),
];

pub const RULE_FIRST: &[Listed] = &[
    Once(CELL_0, ByRule(0), ReadWrite),
    Once(CELL_0, Copied, ReadOnly),
];

// Cell 1, which is not as by rule 0.
pub const UNLIKE_LATER: &[Listed] = &[
    Once(CELL_1, Copied, ReadOnly),
    Once(BOTH, ByRule(0), ReadWrite),
];

pub const UNLIKE_FIRST: &[Listed] = &[
    Once(CELL_1, ByRule(0), ReadOnly),
    Once(CELL_1, Copied, ReadOnly),
];

pub const NO_RULE: &[Listed] = &[
    Once(CELL_1, Copied, ReadOnly),
    Once(CELL_1, ByRule(4), ReadOnly),
];

// Via parent first, and after a copy of each cell or of one.
pub const VIA_FIRST: &[Listed] = &[
    Once(CELL_0, ViaParent, ReadOnly),
    Once(CELL_0, Copied, ReadWrite),
];

pub const VIA_LATER: &[Listed] = &[
    Once(CELL_0, Copied, ReadOnly),
    Once(CELL_0, ViaParent, ReadWrite),
];

pub const VIA_HALF: &[Listed] = &[
    Once(CELL_0, Copied, ReadOnly),
    Once(BOTH, ViaParent, ReadOnly),
];

pub const VIA_BOTH: &[Listed] = &[
    Once(BOTH, Copied, ReadOnly),
    Once(BOTH, ViaParent, ReadWrite),
];

pub const LAST_OUT: &[Listed] = &[
    Once(CELL_0, Copied, ReadWrite),
    Once(CELL_3, Copied, ReadWrite),
    Once(Cells(4, 1), Copied, ReadOnly),
];

pub const VIA_KIND: &[Listed] = &[
    Once(CELL_0, ViaParent, ReadOnly),
    Once(CELL_0, OtherKind(3, 0), ReadOnly),
];

pub const KIND_VIA: &[Listed] = &[
    Once(CELL_0, OtherKind(3, 0), ReadOnly),
    Once(CELL_0, ViaParent, ReadOnly),
];

// Three new cells, all by copy or one first by rule; and two, with one that is held.
pub const THREE: &[Listed] = &[
    Once(CELL_0, Copied, ReadOnly),
    Once(CELL_1, Copied, ReadOnly),
    Once(CELL_2, Copied, ReadOnly),
];

pub const THREE_RULED: &[Listed] = &[
    Once(CELL_0, Copied, ReadOnly),
    Once(CELL_1, Copied, ReadOnly),
    Once(CELL_2, ByRule(0), ReadOnly),
    Once(CELL_2, Copied, ReadOnly),
];

pub const TWO_HELD: &[Listed] = &[
    Once(BOTH, Copied, ReadOnly),
    Once(CELL_1, Copied, ReadWrite),
    Once(CELL_3, Copied, ReadWrite),
];

pub const FALLING: &[Listed] = &[
    Once(CELL_3, Copied, ReadOnly),
    Once(Cells(1, 2), Copied, ReadWrite),
    Once(BOTH, Copied, ReadOnly),
];

// Nine cells, and then a range with this number as its answer.
pub const NINE_7: &[Listed] = &[
    Once(FIVE, Copied, ReadOnly),
    Once(FOUR_MORE, Copied, ReadOnly),
    Once(CELL_0, OtherKind(3, 0), ReadOnly),
];

pub const NINE_11: &[Listed] = &[
    Once(FIVE, Copied, ReadOnly),
    Once(FOUR_MORE, Copied, ReadOnly),
    Once(Cells(10, 1), ViaParent, ReadOnly),
];

pub const NINE_12: &[Listed] = &[
    Once(FIVE, Copied, ReadOnly),
    Once(FOUR_MORE, Copied, ReadOnly),
    Once(Cells(9, 1), ViaParent, ReadOnly),
];

pub const NINE_18: &[Listed] = &[
    Once(FIVE, Copied, ReadOnly),
    Once(FOUR_MORE, Copied, ReadOnly),
    Once(Cells(9, 1), ByRule(0), ReadOnly),
];

pub const NINE_19: &[Listed] = &[
    Once(FIVE, Copied, ReadOnly),
    Once(FOUR_MORE, Copied, ReadOnly),
    Once(Cells(11, 1), ViaParent, ReadOnly),
];

pub const NINE_16: &[Listed] = &[
    Once(FIVE, Copied, ReadOnly),
    Once(FOUR_MORE, Copied, ReadOnly),
    Once(Cells(8, 1), ViaParent, ReadWrite),
    Once(Cells(0, 9), ByRule(0), ReadOnly),
];

pub const RAISED_TWICE: &[Listed] = &[
    Once(CELL_0, Copied, ReadWrite),
    Once(BOTH, ViaParent, ReadWrite),
    Once(CELL_2, Copied, ReadOnly),
    Once(CELL_2, Copied, ReadWrite),
];

pub const TILE: &[Listed] = &[
    Once(Cells(14, 1), Copied, ReadWrite),
    Once(Cells(2, 2), ViaParent, ReadOnly),
    Once(CELL_1, ByRule(0), ReadOnly),
    Once(Cells(5, 1), ByRule(0), ReadWrite),
    Once(Cells(9, 1), ByRule(0), ReadOnly),
    Once(Cells(7, 2), Copied, ReadOnly),
    Once(CELL_0, Copied, ReadWrite),
    Once(Cells(12, 1), Copied, ReadOnly),
    Once(Cells(13, 1), ByRule(0), ReadWrite),
];
