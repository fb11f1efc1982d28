// Which cells a domain holds read-write, from the marks of all entries.
ghost use Rattle.std.specs.Prelude.{◌≡◌, ◌/◌, ◌^◌, ◌≤◌};
ghost use Rattle.words.specs.Layout.{max_live};
ghost use Rattle.table.specs.Entry.{depth_of};
ghost use Rattle.marks.specs.Blocks.{Kept};
ghost use Rattle.table.specs.Marks.{mark_at, Marked, CellsOnce};
ghost use Rattle.search.specs.Writable.{taken_by, KeepsCell, TellWritable};

use marks::{change_mark, mark_of};
use table::fields::{cell_of, depth_of, writable_of};
use table::lent::Entries;

// What an entry of this depth takes out of its cell's mark: the depth's bit if the entry is read-only, else nothing. The product takes no
// branch, where mixed labels would be guessed wrong.
fn taken_bit(word: u32, depth: u32) -> u8
    requires { (depth ≤ max_live) × (depth_of word ≡ depth) }
    ensures { result ≡ 2 ^ taken_by depth word / 2 }
{
    ((1u32 << depth) / 2 * (1 - writable_of(word))) as u8
}

// Takes this depth out of the mark of a read-only entry's cell. Entries of another depth, and free ones, are left out: a free entry's word
// names cell 0, and storing its mark once for each would hold up the next.
pub fn keep_entry(seen: &mut [u8], word: u32, depth: u32)
    requires { (depth ≤ max_live) × Kept seen.old × (2 ^ taken_by depth word / 2 ≤ mark_at seen.old word) × (depth_of word ≡ depth → 1 ≤ mark_at seen.old word) }
    ensures { KeepsCell depth word seen.old seen.new × Kept seen.new }
{
    if depth_of(word) != depth {
        return;
    }
    let cell = cell_of(word);
    let mark = mark_of(seen, cell);
    change_mark(seen, cell, mark - taken_bit(word, depth));
}

// Takes this depth out of the mark of each cell that the domain at this depth holds read-only, so that the marks tell of this depth which
// cells it holds read-write.
pub fn keep_writable(entries: &Entries<'_>, depth: u32, seen: &mut [u8])
    requires depth { (1 ≤ depth) × (depth ≤ max_live) }
    requires marked { Kept seen.old × Marked entries.now.slots entries.now.words.now entries.now.slots seen.old }
    requires once { CellsOnce entries.now.slots entries.now.words.now entries.now.slots }
    ensures { TellWritable entries.now.slots entries.now.words.now depth seen.old seen.new }
{
    for i in 0..entries.top {
        keep_entry(seen, entries.first_word(i), depth);
    }
}
