// The cells that a call is to free.
ghost use Rattle.std.specs.Prelude.{◌≡◌, ◌+◌, ◌≤◌};
ghost use Rattle.words.specs.Layout.{max_cells, max_live};
ghost use Rattle.table.specs.Entry.{child};
ghost use Rattle.delete.specs.Parts.{in_cells, via_word};

use table::domains::child_of;
use table::fields::{cell_of, depth_of, is_via};

// `count` cells from `first` on, all of them in memory, and the depth of the domain that is to lack them.
#[derive(Clone, Copy)]
pub struct Cells {
    pub depth: u32,
    pub first: u32,
    pub count: u32,
    ghost lives: { (1 ≤ depth) × (depth ≤ max_live) },
    ghost inside: { first + count ≤ max_cells },
}

// Is an entry of this depth and of one of these cells?
fn in_cells(word: u32, depth: u32, first: u32, count: u32) -> bool
    requires { first + count ≤ max_cells }
    ensures { result ≡ in_cells depth first count word }
{
    let cell = cell_of(word) as u32;
    (depth_of(word) == depth) & ((first <= cell) & (cell < first + count))
}

impl Cells {
    // Does the domain hold one of these cells by an entry with this first word, so that the entry is freed?
    pub fn frees(self, word: u32) -> bool
        ensures { result ≡ in_cells self.depth self.first self.count word }
    {
        in_cells(word, self.depth, self.first, self.count)
    }

    // Does the next domain in hold one of them via parent by such an entry?
    pub fn bears(self, word: u32) -> bool
        ensures { result ≡ via_word (child self.depth) self.first self.count word }
    {
        is_via(word) & in_cells(word, child_of(self.depth), self.first, self.count)
    }
}
