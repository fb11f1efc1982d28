// An entry is looked for by a key: the first word of an entry of its depth and its cell, with no other bit.
ghost use Rattle.std.specs.Prelude.{◌≡◌, ◌<◌};
ghost use Rattle.words.specs.Layout.{max_cells};
ghost use Rattle.search.specs.Search.{Bare, IsKey, named_by};

use table::fields::{cell_of, depth_of, entry_word};

// The key of a depth and a cell.
#[derive(Clone, Copy)]
pub struct Key {
    pub word: u32,
    ghost bare: { Bare word },
}

impl Key {
    pub fn of(depth: u32, cell: u32) -> Self
        requires { (depth < 16) × (cell < max_cells) }
        ensures { IsKey depth cell result.word }
    {
        Key {
            word: entry_word(depth, 0, 0, cell),
        }
    }

    // Does an entry's first word name the depth and the cell of this key? It does where the two differ in label, kind and unused bits alone,
    // which the difference shows in one test.
    pub fn names(self, word: u32) -> bool
        ensures { result ≡ named_by self.word word }
    {
        let apart = word.wrapping_sub(self.word);
        (depth_of(apart) == 0) & (cell_of(apart) == 0)
    }
}
