// A range taken out of the list.
use ranges::Range;

// A range, and those of the ranges before it that are to be asked whether they name one of its cells.
#[derive(Clone, Copy)]
pub struct Part<'a> {
    pub range: Range,
    pub seen: &'a [Range],
}
