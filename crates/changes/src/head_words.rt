// What is staged of the head: which of its words get which values.
ghost use Rattle.std.specs.Prelude.{◌≡◌, ℕ, ◌≤◌, ◌<◌, length, slice_index_or};
ghost use Rattle.words.specs.Layout.{handle_at, max_live};
ghost use Rattle.changes.specs.Staged.{head_room};

// Words 4, 5 and 8 to 15: those of the head that a pair may name.
pub const HEAD_ROOM: usize = 10;

// The words of the head that change: the first `count` of `words`, each with its number and its new value. All of them stand in front of the entries.
// They are an array with a count, since a head is handed on by value and is Copy, which the kit's ArrayVec never is.
#[derive(Clone, Copy)]
pub struct Head {
    pub words: [(u32, u32); HEAD_ROOM],
    pub count: usize,
    ghost long: { length words ≡ head_room },
    ghost few: { count ≤ head_room },
    ghost low: { (j : ℕ) → j < count → (slice_index_or words j (0, 0)).0 < handle_at max_live },
}

impl Head {
    ghost use Rattle.std.specs.Prelude.{[], ◌∷◌, ◌++◌, ◌+◌};
    ghost use Rattle.words.specs.Stores.{◌≔◌};
    ghost use Rattle.changes.specs.Head.{head_stores, head_count};

    // No word of the head changes.
    pub fn none() -> Self
        ensures counted { head_count result ≡ 0 }
        ensures stored { head_stores result ≡ [] }
    {
        Head {
            words: [(0u32, 0u32); HEAD_ROOM],
            count: 0,
        }
    }

    // One word of the head more. Words are staged in rising order of their numbers.
    pub fn with(self, number: usize, value: u32) -> Self
        requires { (head_count self < head_room) × (number < handle_at max_live) }
        ensures counted { head_count result ≡ head_count self + 1 }
        ensures stored { head_stores result ≡ head_stores self ++ (number ≔ value) ∷ [] }
    {
        let mut words = self.words;
        words[self.count] = (number as u32, value);
        Head {
            words,
            count: self.count + 1,
        }
    }
}
