// The fields of an entry's first word, read and made here alone: bits 28 to 31 are the depth, bit 27 the label, bits 26 and 25 the kind, and
// bits 0 to 15 the cell. And what its second word is, by its kind.
ghost use Rattle.std.specs.Prelude.{◌≡◌, ◌*◌, ◌≤◌, ◌<◌};
ghost use Rattle.words.specs.Layout.{max_cells};
ghost use Rattle.table.specs.Entry.{kind_number, label_number, NamesKind, NamesLabel};
ghost use Rattle.table.specs.Entry.{depth_of, cell_of, writable_of, below_kind, is_writable, is_via, is_pattern, owns_body, kind_bits, entry_word, second_word, writable, outward, as_copy};

// How a domain holds a cell: by a copy of its bytes in a body, by what its parent holds, or by the rule that they follow.
#[derive(Clone, Copy, PartialEq, Eq, Debug)]
pub enum Kind {
    Copy,
    ViaParent,
    ByRule,
}

// May the domain write the cell?
#[derive(Clone, Copy, PartialEq, Eq, Debug)]
pub enum Label {
    ReadOnly,
    ReadWrite,
}

// A number that no kind has, or no label.
#[derive(Clone, Copy, PartialEq, Eq, Debug)]
pub struct UnknownNumber(pub u32);

impl TryFrom<u32> for Kind {
    type Error = UnknownNumber;

    ghost try_from_gives = { NamesKind };

    fn try_from(number: u32) -> Result<Self, UnknownNumber> {
        match number {
            0 => Ok(Kind::Copy),
            1 => Ok(Kind::ViaParent),
            2 => Ok(Kind::ByRule),
            _ => Err(UnknownNumber(number)),
        }
    }
}

impl TryFrom<u32> for Label {
    type Error = UnknownNumber;

    ghost try_from_gives = { NamesLabel };

    fn try_from(number: u32) -> Result<Self, UnknownNumber> {
        match number {
            0 => Ok(Label::ReadOnly),
            1 => Ok(Label::ReadWrite),
            _ => Err(UnknownNumber(number)),
        }
    }
}

impl Kind {
    // Its bits in a first word.
    pub fn bits(self) -> u32
        ensures { result ≡ kind_bits (kind_number self) }
    {
        match self {
            Kind::Copy => 0,
            Kind::ViaParent => 67108864,
            Kind::ByRule => 33554432,
        }
    }

    // The first word of an entry of this kind, with this depth, label and cell.
    pub fn entry_word(self, depth: u32, label: Label, cell: u32) -> u32
        requires { (depth < 16) × (cell < max_cells) }
        ensures { result ≡ entry_word depth (kind_number self) (label_number label) cell }
    {
        268435456 * depth + label.bit() + self.bits() + cell
    }

    // Its second word: a copy's body, or the rule; via parent has 0.
    pub fn second_of(self, rule: u32, body: u32) -> u32
        ensures { result ≡ second_word (kind_number self) rule body }
    {
        match self {
            Kind::Copy => body,
            Kind::ViaParent => 0,
            Kind::ByRule => rule,
        }
    }
}

impl Label {
    // Its bit in a first word.
    pub fn bit(self) -> u32
        ensures { result ≡ 134217728 * label_number self }
    {
        match self {
            Label::ReadOnly => 0,
            Label::ReadWrite => 134217728,
        }
    }
}

pub fn depth_of(word: u32) -> u32
    ensures { result ≡ depth_of word }
{
    word / 268435456
}

pub fn cell_of(word: u32) -> usize
    ensures { result ≡ cell_of word }
{
    (word % 65536) as usize
}

// All bits below the kind: the cell, where the unused ones are zero.
pub fn below_kind(word: u32) -> u32
    ensures { result ≡ below_kind word }
{
    word % 33554432
}

pub fn is_writable(word: u32) -> bool
    ensures { result ≡ is_writable word }
{
    word / 134217728 % 2 == 1
}

pub fn is_via(word: u32) -> bool
    ensures { result ≡ is_via word }
{
    word / 67108864 % 2 == 1
}

pub fn is_pattern(word: u32) -> bool
    ensures { result ≡ is_pattern word }
{
    word / 33554432 % 2 == 1
}

// The label as a number, for code with no branch: 1 for read-write, else 0.
// old form: goes when its callers have gone over, to `is_writable` or a number made of it
pub fn writable_of(word: u32) -> u32
    ensures { result ≡ writable_of word }
{
    word / 134217728 % 2
}

// Is the entry's second word a body? It is where the entry is in use and a copy.
pub fn owns_body(word: u32) -> bool
    ensures { result ≡ owns_body word }
{
    (word != 0) & ((word / 67108864 % 2 == 0) & (word / 33554432 % 2 == 0))
}

// The bits of a kind as add numbers it: 0 copy, 1 via parent, 2 by rule.
pub fn kind_bits(kind: u32) -> u32
    ensures { result ≡ kind_bits kind }
{
    match kind {
        0 => 0,
        1 => 67108864,
        _ => 33554432,
    }
}

// The first word of an entry of this depth, kind, label and cell.
pub fn entry_word(depth: u32, kind: u32, label: u32, cell: u32) -> u32
    requires { (depth < 16) × (label ≤ 1) × (cell < max_cells) }
    ensures { result ≡ entry_word depth kind label cell }
{
    268435456 * depth + 134217728 * label + kind_bits(kind) + cell
}

// Its second word: a copy's body, or the rule; via parent has 0.
pub fn second_of(kind: u32, rule: u32, body: u32) -> u32
    ensures { result ≡ second_word kind rule body }
{
    match kind {
        0 => body,
        1 => 0,
        _ => rule,
    }
}

// A read-only entry's first word as a read-write one's.
pub fn raise(word: u32) -> u32
    requires { writable_of word ≡ 0 }
    ensures { result ≡ writable word }
{
    word + 134217728
}

// The first word of an entry that moves to the next domain out.
pub fn move_out(word: u32) -> u32
    requires { 1 ≤ depth_of word }
    ensures { result ≡ outward word }
{
    word - 268435456
}

// The first word of an entry that becomes a copy, if it was none.
pub fn to_copy(word: u32) -> u32
    ensures { result ≡ as_copy word }
{
    134217728 * (word / 134217728) + word % 33554432
}
