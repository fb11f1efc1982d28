// What becomes of the entries when the innermost domain ends, told by their own words and by the marks of their cells.
ghost use Rattle.std.specs.Prelude.{◌≡◌, true, cond, ◌≤◌, ◌<◌};
ghost use Rattle.words.specs.Layout.{max_live, max_cells};
ghost use Rattle.table.specs.Entry.{depth_of, writable_of, parent, outward, writable};
ghost use Rattle.marks.specs.Blocks.{cells_in};
ghost use Rattle.table.specs.Marks.{has};
ghost use Rattle.changes.specs.Staged.{change_of};
ghost use Rattle.commit.specs.Commit.{raises, commit_change};
ghost use Rattle.commit.specs.Decide.{concerned, moves, TellsBoth};

use marks::{has_depth, mark_of};
use table::domains::{is_inner, parent_of};
use table::fields::{cell_of, depth_of, move_out, raise, writable_of};
use table::lent::Entries;

// The innermost domain, by its depth: as many domains are live.
#[derive(Clone, Copy)]
pub struct Innermost {
    pub depth: u32,
    ghost lives: { (1 ≤ depth) × (depth ≤ max_live) },
}

// The innermost domain where it has a parent.
#[derive(Clone, Copy)]
struct Inner {
    depth: u32,
    ghost within: { (2 ≤ depth) × (depth ≤ max_live) },
}

impl Inner {
    // Can an entry change, by its first word alone? It can if it is innermost, or its parent's and read-only. Most are neither.
    fn is_concerned(self, word: u32) -> bool
        ensures { result ≡ concerned self.depth word }
    {
        let depth = depth_of(word);
        (depth == self.depth) | ((depth == parent_of(self.depth)) & (writable_of(word) == 0))
    }

    // Does an innermost entry move out: does the parent lack the cell?
    fn moves_out(self, word: u32, mark: u8) -> bool
        ensures { result ≡ moves self.depth word (has (parent self.depth) mark) }
    {
        (depth_of(word) == self.depth) & !has_depth(mark, parent_of(self.depth))
    }

    // Does an entry of the parent become read-write: is it read-only, and does the innermost domain hold its cell read-write?
    fn is_raised(self, word: u32, mark: u8) -> bool
        ensures { result ≡ raises self.depth word (has self.depth mark) }
    {
        (depth_of(word) == parent_of(self.depth))
            & ((writable_of(word) == 0) & has_depth(mark, self.depth))
    }
}

// The first word of an entry that changes: one depth further out, or read-write, or 0 where it is freed.
fn changed_word(word: u32, out: bool, raised: bool) -> u32
    requires { (out ≡ true → 1 ≤ depth_of word) × (raised ≡ true → writable_of word ≡ 0) }
    ensures { result ≡ cond out (outward word) (cond raised (writable word) 0) }
{
    if out {
        return move_out(word);
    }
    if raised {
        return raise(word);
    }
    0
}

// A body that is kept, or 0.
fn body_if(kept: bool, second: u32) -> u32
    ensures { result ≡ cond kept second 0 }
{
    if kept { second } else { 0 }
}

// The entries, the innermost domain, and marks that tell which cells it holds read-write and which its parent holds.
#[derive(Clone, Copy)]
pub struct Ending<'t, 's> {
    pub entries: Entries<'t>,
    pub innermost: Innermost,
    pub seen: &'s [u8],
    ghost marks: { max_cells ≤ cells_in seen.now },
    ghost told: { TellsBoth entries.slots entries.words.now innermost.depth seen.now },
}

impl<'t, 's> Ending<'t, 's> {
    // What becomes of entry i where the innermost domain has no parent: its entries are freed, and the others stay.
    fn free_entry(&self, i: usize) -> Option<(u32, u32)>
        requires { (i < self.now.entries.slots) × (self.now.innermost.depth < 2) }
        ensures { change_of result ≡ commit_change self.now.entries.slots self.now.entries.words.now self.now.innermost.depth i }
    {
        (depth_of(self.entries.first_word(i)) == self.innermost.depth).then_some((0, 0))
    }

    // The same where it has one: its entries change, and those of the parent that are raised.
    fn merge_entry(&self, i: usize) -> Option<(u32, u32)>
        requires { (i < self.now.entries.slots) × (2 ≤ self.now.innermost.depth) }
        ensures { change_of result ≡ commit_change self.now.entries.slots self.now.entries.words.now self.now.innermost.depth i }
    {
        let inner = Inner {
            depth: self.innermost.depth,
        };
        let word = self.entries.first_word(i);
        if !inner.is_concerned(word) {
            return None;
        }
        let mark = mark_of(self.seen, cell_of(word));
        let raised = inner.is_raised(word, mark);
        if !((depth_of(word) == self.innermost.depth) | raised) {
            return None;
        }
        let out = inner.moves_out(word, mark);
        let first = changed_word(word, out, raised);
        let second = body_if(out | raised, self.entries.second_word(i));
        Some((first, second))
    }

    // What becomes of entry i: its two new words, or nothing where it stays. No mark is read where there is no parent.
    pub fn commit_entry(&self, i: usize) -> Option<(u32, u32)>
        requires { i < self.now.entries.slots }
        ensures { change_of result ≡ commit_change self.now.entries.slots self.now.entries.words.now self.now.innermost.depth i }
    {
        if is_inner(self.innermost.depth) {
            return self.merge_entry(i);
        }
        self.free_entry(i)
    }
}
