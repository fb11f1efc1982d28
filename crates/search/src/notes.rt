// Notes of places to begin a search at: which entries have which cells. The cells fall into buckets, by their lower bits; `last` has for each
// bucket the last entry noted, and `before` for each slot the one noted before it in its bucket. A slot is noted one higher than it is, so that
// 0 says that there is none.
//
// Nothing is promised of notes but safety: a search looks at every entry wherever it begins. So they may be old, or of another table, or lie.
ghost use Rattle.std.specs.Prelude.{◌<◌, ◌≤◌};
ghost use Rattle.search.specs.declared.notes.TheConstants.{FEW_NOTES};

use crate::key::Key;
use table::fields::cell_of;
use table::lent::Entries;

// At most so many entries of a bucket are looked at: notes that lie may lead in a circle, and where more entries share a bucket, passing over
// all of them is hardly slower.
const MAX_LINKS: usize = 64;

// Room for notes of few entries, and of as many as there can be: 256 numbers are cleared in no time, and 4,096 leave few entries in a bucket.
pub const FEW_NOTES: usize = 256;

pub const MANY_NOTES: usize = 4096;

// The bucket of a cell, where there is room for so many. Both numbers are fixed, so that no division is made.
fn bucket_of(room: usize, cell: usize) -> usize
    requires { FEW_NOTES ≤ room }
    ensures { result < room }
{
    if room < MANY_NOTES {
        cell % FEW_NOTES
    } else {
        cell % MANY_NOTES
    }
}

// Notes that are lent to a search: two slices of any length, with any numbers in them. Where `last` is too short for any buckets, they tell of none.
#[derive(Clone, Copy)]
pub struct Noted<'a> {
    pub last: &'a [u16],
    pub before: &'a [u16],
}

impl<'a> Noted<'a> {
    // A slot to begin at for this depth and cell: the first in its bucket that is named, or 0 where the notes tell of none.
    pub fn begin_at(&self, entries: &Entries<'_>, depth: u32, cell: u32) -> usize {
        let room = self.last.len();
        if (room < FEW_NOTES) | (16 <= depth) | (65536 <= cell) {
            return 0;
        }
        let key = Key::of(depth, cell);
        let end = entries.slots.min(self.before.len());
        let mut at = usize::from(self.last[bucket_of(room, cell as usize)]);
        for _ in 0..MAX_LINKS {
            if (at == 0) | (end < at) {
                return 0;
            }
            if key.names(entries.first_word(at - 1)) {
                return at - 1;
            }
            at = usize::from(self.before[at - 1]);
        }
        0
    }
}

// Room for notes in N buckets of as many entries. With fewer buckets than `FEW_NOTES` nothing is noted: a call that searches once or not at all has one.
//
// stays: a number has 0 for none, since an `Option<u16>` takes twice the room, and a call clears it all
#[derive(Clone, Copy)]
pub struct Notes<const N: usize> {
    last: [u16; N],
    before: [u16; N],
}

impl<const N: usize> Notes<N> {
    // No notes at all.
    pub fn none() -> Self {
        Notes {
            last: [0u16; N],
            before: [0u16; N],
        }
    }

    // Notes the entries in use, as many as there is room for. They are made in place: so many numbers handed back would be copied.
    pub fn note(&mut self, entries: &Entries<'_>) {
        if N < FEW_NOTES {
            return;
        }
        for i in 0..entries.top.min(N) {
            let word = entries.first_word(i);
            if word != 0 {
                let at = bucket_of(N, cell_of(word));
                self.before[i] = self.last[at];
                self.last[at] = (i + 1) as u16;
            }
        }
    }

    // These notes, for a search.
    pub fn lent(&self) -> Noted<'_> {
        Noted {
            last: &self.last,
            before: &self.before,
        }
    }
}
