// Where taking stands.
ghost use Rattle.std.specs.Prelude.{◌≡◌, ◌+◌, ◌<◌, ◌≤◌, cond, eqb};
ghost use Rattle.words.specs.Layout.{cell_size, max_slots, max_bodies};
ghost use Rattle.table.specs.Entry.{kind_number};

use table::fields::Kind;
use words::layout::CELL_SIZE;

// The entry slot and the body to go on from, and how many bytes there were.
#[derive(Clone, Copy, PartialEq, Eq, Debug)]
pub struct Cursors {
    pub slot: usize,
    pub body: usize,
    pub made: usize,
}

impl Cursors {
    // Where taking begins.
    pub const START: Self = Cursors {
        slot: 0,
        body: 0,
        made: 0,
    };

    // Behind a new cell of this kind, which has this slot and body.
    pub fn beyond(self, kind: Kind, slot: usize, body: usize) -> Self
        requires { (slot ≤ max_slots) × (body ≤ max_bodies) × (self.made + cell_size < 4294967296) }
        ensures { (result.slot ≡ slot + 1) × (result.body ≡ cond (eqb (kind_number kind) 0) (body + 1) body)
            × (result.made ≡ self.made + cond (eqb (kind_number kind) 0) cell_size 0) }
    {
        match kind {
            Kind::Copy => Cursors {
                slot: slot + 1,
                body: body + 1,
                made: self.made + CELL_SIZE,
            },
            _ => Cursors {
                slot: slot + 1,
                body,
                made: self.made,
            },
        }
    }
}
