// Free entry slots and free bodies, and how many are in use.
ghost use Rattle.std.specs.Prelude.{◌≡◌, ◌≤◌, length};
ghost use Rattle.search.specs.Search.{Found};
ghost use Rattle.search.specs.Free.{used_slots, copies, free_from, unmarked_from};

use table::fields::owns_body;
use table::lent::Entries;

// How many entries are in use, and how many of these have a body.
#[derive(Clone, Copy, PartialEq, Eq, Debug)]
pub struct InUse {
    pub entries: usize,
    pub copies: usize,
}

// Both in one pass over the entries up to the last in use. It takes no branch on what an entry holds, and counts in numbers as wide as a word, so
// that the compiler can count several entries at once.
pub fn count_used(entries: &Entries<'_>) -> InUse
    ensures { (result.entries ≡ used_slots entries.now.slots entries.now.words.now) × (result.copies ≡ copies entries.now.slots entries.now.words.now) }
{
    let mut used: u32 = 0;
    let mut copies: u32 = 0;
    for i in 0..entries.top {
        let word = entries.first_word(i);
        used += u32::from(word != 0);
        copies += u32::from(owns_body(word));
    }
    InUse {
        entries: used as usize,
        copies: copies as usize,
    }
}

// The lowest free entry slot from `from` on.
pub fn next_free_slot(entries: &Entries<'_>, from: usize) -> Option<usize>
    requires { from ≤ entries.now.slots }
    ensures { Found entries.now.slots (free_from entries.now.slots entries.now.words.now from) result }
{
    for i in from..entries.slots {
        if entries.first_word(i) == 0 {
            return Some(i);
        }
    }
    None
}

// The lowest body from `from` on that has no mark. `used` has the mark 1 at each body in use, so that a call that takes many bodies passes the
// entries once for all of them.
pub fn next_free_body(used: &[u8], bodies: usize, from: usize) -> Option<usize>
    requires { (bodies ≤ length used.now) × (from ≤ bodies) }
    ensures { Found bodies (unmarked_from bodies used.now from) result }
{
    for k in from..bodies {
        if used[k] != 1 {
            return Some(k);
        }
    }
    None
}
