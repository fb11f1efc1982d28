// What the questions on ranges have before them.
ghost use Rattle.std.specs.Prelude.{◌≡◌, ◌≤◌, length};
ghost use Rattle.words.specs.Layout.{slots_of, max_cells};
ghost use Rattle.table.specs.Entry.{live};
ghost use Rattle.marks.specs.Blocks.{cells_in};
ghost use Rattle.store.specs.Checks.{store_check, lent};
ghost use Rattle.add.specs.Walking.{CellsTold};

use table::lent::Sound;

// A table that questions 1 to 4 let pass, with a domain in it, the memory and the bodies beside it, and marks that tell which domains hold a cell.
#[derive(Clone, Copy)]
pub struct Asking<'a> {
    pub memory: &'a [u8],
    pub bodies: &'a [u8],
    pub table: Sound<'a>,
    pub held: &'a [u8],
    ghost store: { store_check (lent (length memory.now) (length bodies.now) table.entries.words.now) ≡ 0 },
    ghost inner: { 1 ≤ live table.entries.words.now },
    ghost slots: { table.entries.slots ≡ slots_of (length table.entries.words.now) },
    ghost cells: { max_cells ≤ cells_in held.now },
    ghost told: { CellsTold (slots_of (length table.entries.words.now)) table.entries.words.now held.now },
}
