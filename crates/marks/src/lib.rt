// The marks of cells: which domains hold a cell, told by the entries passed so far.
//
// They are kept in blocks of 64 that are taken as cells are marked, so that a call costs what the table has and not what memory has. In front
// stands the directory, in numbers of two bytes: how many blocks are taken, then for each group of 64 cells the number of its block, 0 where it
// has none. The blocks stand behind it; block 0 belongs to no group and is blank. How marks are kept is known here alone.
#![tactic(auto)]

ghost use Rattle.std.specs.Prelude.{◌≡◌, true, false, not, ℕ, ◌+◌, ◌*◌, ◌<◌, ◌≤◌, min, length, set};
ghost use Rattle.words.specs.Layout.{max_cells, max_live, group_size, group_of, in_group};
ghost use Rattle.marks.specs.Blocks.{has, with_depth, zeros, number, put_number, taken, block_of, max_groups, groups_for, directory_end, place_of, mark_of};
ghost use Rattle.marks.specs.Blocks.{cells_in, Kept, with_block, mark_cell, Spare, run_size, spread, run_held};

pub mod lent;

use lent::{Directory, Marks};
use words::layout::{GROUP_SIZE, MAX_CELLS};

// Where the blocks begin, a whole number of blocks from the front.
const DIRECTORY_END: usize = 2112;

// ---- the directory

// Its k-th number, the low byte first.
#[tactic(auto, unfolding(crate::specs::Blocks::number))]
fn number_at(seen: &[u8], k: usize) -> u16
    requires { (2 * k + 1 < length seen.now) × (k ≤ max_groups) }
    ensures { result ≡ number seen.now k }
{
    u16::from_le_bytes([seen[2 * k], seen[2 * k + 1]])
}

#[tactic(auto, unfolding(crate::specs::Blocks::put_number))]
fn put_number(seen: &mut [u8], k: usize, x: u16)
    requires { (2 * k + 1 < length seen.old) × (k ≤ max_groups) }
    ensures { seen.new ≡ put_number seen.old k x }
{
    let bytes = x.to_le_bytes();
    seen[2 * k] = bytes[0];
    seen[2 * k + 1] = bytes[1];
}

// The group of cells to which a cell belongs.
pub fn group_of(cell: usize) -> usize
    ensures { result ≡ group_of cell }
{
    cell / GROUP_SIZE
}

// Gives a group a block if it has none.
#[tactic(auto, unfolding(crate::specs::Blocks::with_block))]
fn take_block(seen: &mut [u8], g: usize)
    requires { (g < max_groups) × (directory_end ≤ length seen.old) × (taken seen.old < 65535) }
    ensures { seen.new ≡ with_block seen.old g }
{
    if number_at(seen, 1 + g) == 0 {
        let block = number_at(seen, 0) + 1;
        put_number(seen, 1 + g, block);
        put_number(seen, 0, block);
    }
}

// ---- a mark

// The mark of a cell: which domains hold it. A place behind the end has none, so that a reader need not know that the directory is right.
#[tactic(auto, unfolding(crate::specs::Blocks::mark_of, crate::specs::Blocks::cells_in))]
pub fn mark_of(seen: &[u8], cell: usize) -> u8
    requires { cell < cells_in seen.now }
    ensures { result ≡ mark_of seen.now cell }
{
    let directory = Directory { seen };
    seen.get(directory.place_of(cell)).copied().unwrap_or(0)
}

// Does a mark have this depth? The shift takes no branch, where scattered depths would be guessed wrong.
pub fn has_depth(mark: u8, depth: u32) -> bool
    requires { depth < 16 }
    ensures { result ≡ has depth mark }
{
    ((2 * u32::from(mark)) >> depth) % 2 == 1
}

// A mark with one depth more.
fn with_depth(mark: u8, depth: u32) -> u8
    requires { (depth ≤ max_live) × (has depth mark ≡ false) }
    ensures { result ≡ with_depth depth mark }
{
    mark + ((1u32 << depth) / 2) as u8
}

// Marks a cell as held at this depth. False where the mark has the depth already.
// stays: marks that are changed are lent as bytes, as a type that has them as they are kept would be made again behind each store
pub fn mark_cell(seen: &mut [u8], depth: u32, cell: usize) -> bool
    requires { (depth ≤ max_live) × (cell < max_cells) × Kept seen.old × Spare seen.old (group_of cell) }
    ensures { (result ≡ not (has depth (mark_of seen.old cell))) × (result ≡ true → seen.new ≡ mark_cell depth cell seen.old) }
{
    take_block(seen, group_of(cell));
    let directory = Directory { seen };
    let at = directory.place_of(cell);
    let mark = seen[at];
    if has_depth(mark, depth) {
        return false;
    }
    seen[at] = with_depth(mark, depth);
    true
}

// Gives a cell another mark. Its group must have a block, which the caller sees to: block 0 stays blank.
#[tactic(auto, using(crate::proofs::Blocks::place_fits))]
pub fn change_mark(seen: &mut [u8], cell: usize, mark: u8)
    requires { (cell < max_cells) × Kept seen.old }
    ensures { seen.new ≡ set seen.old (place_of seen.old cell) mark }
{
    let directory = Directory { seen };
    let at = directory.place_of(cell);
    seen[at] = mark;
}

// ---- room for marks, none made yet

// How many blocks the cells of so many entries may need, in a memory of so many cells.
pub fn blocks_wanted(entries: usize, cells: usize) -> usize
    ensures { result ≡ min entries (groups_for cells) }
{
    entries.min(cells.min(MAX_CELLS).div_ceil(GROUP_SIZE))
}

// Marks of so many bytes have room for so many blocks, and for the one that nobody has: `[0u8; FEW_BYTES]` has, where no more than FEW_BLOCKS are
// wanted.
pub const FEW_BLOCKS: usize = 64;

pub const FEW_BYTES: usize = 6272;

pub const SOME_BLOCKS: usize = 256;

pub const SOME_BYTES: usize = 18560;

// For every group of the largest memory.
pub const MANY_BYTES: usize = 67712;

// ---- what the marks of a run of eight cells have of a mask of domains, as one number: a byte each, the first cell's lowest. So eight are asked
// at once, and each is told apart without another look at the directory.

pub const RUN_SIZE: usize = 8;

// A mask eight times side by side.
#[tactic(auto, unfolding(crate::specs::Blocks::spread))]
pub fn spread_mask(mask: u8) -> u64
    ensures { result ≡ spread mask run_size }
{
    u64::from_le_bytes([mask; RUN_SIZE])
}
