// What the taking of a list's cells reads.
ghost use Rattle.std.specs.Prelude.{◌≡◌, length};
ghost use Rattle.words.specs.Layout.{cells_of, slots_of};
ghost use Rattle.add.specs.Walking.{AbleToTake};

use ranges::fitting::Fitting;
use table::lent::Entries;

// A list that no question refuses, with the memory, the entries and the marks of cells and of bodies; `room` is how many bytes the bodies have, which
// are lent to be written.
#[derive(Clone, Copy)]
pub struct Taking<'a, 't> {
    pub memory: &'a [u8],
    pub entries: Entries<'t>,
    pub held: &'a [u8],
    pub used: &'a [u8],
    pub list: Fitting<'a>,
    pub room: usize,
    ghost slots: { entries.slots ≡ slots_of (length entries.words.now) },
    ghost cells: { list.cells ≡ cells_of (length memory.now) },
    ghost able: { AbleToTake memory.now room entries.words.now held.now used.now list.ranges.now },
}
