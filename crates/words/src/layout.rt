// Where everything stands in the three lent buffers. The numbers of document 01's table stand here and in specs/Layout.antt alone.
ghost use Rattle.std.specs.Prelude.{◌≡◌, ◌≤◌, ◌<◌};
ghost use Rattle.words.specs.Layout.{cell_at, cells_of, bodies_of, slots_of, table_words, handle_at, first_at, second_at, pairs_at, max_pairs, max_live, max_slots};

// A cell has so many bytes, and so has a body.
pub const CELL_SIZE: usize = 64;

// A number of 64 bits has one for each of so many cells or slots.
pub const GROUP_SIZE: usize = 64;

pub const MAX_CELLS: usize = 65536;

pub const MAX_BODIES: usize = 4096;

pub const MAX_SLOTS: usize = 4096;

// So many words stand in front of the pairs of the largest table.
pub const MAX_FRONT: usize = 8208;

pub const MAX_LIVE: u32 = 8;

// Word 0 of every store.
pub const MAGIC: u32 = 0xCD511E01;

// The number of each word of the head.
pub const MAGIC_AT: usize = 0;

pub const CELLS_AT: usize = 1;

pub const SLOTS_AT: usize = 2;

pub const BODIES_AT: usize = 3;

pub const LIVE_AT: usize = 4;

pub const NEXT_AT: usize = 5;

pub const PENDING_AT: usize = 6;

pub const ZERO_AT: usize = 7;

// The first byte of cell c of memory, or of body c of the bodies.
pub fn cell_at(c: usize) -> usize
    requires { cell_at c < 18446744073709551616 }
    ensures { result ≡ cell_at c }
{
    CELL_SIZE * c
}

// How many cells a buffer of so many bytes has, or how many bodies.
pub fn cells_of(bytes: usize) -> usize
    ensures { result ≡ cells_of bytes }
{
    bytes / CELL_SIZE
}

// And how many bodies.
// stays: bodies are counted as cells are, and a reader sees which of the two a line counts.
pub fn bodies_of(bytes: usize) -> usize
    ensures { result ≡ bodies_of bytes }
{
    cells_of(bytes)
}

// The length in words of a table with so many slots.
pub fn table_words(slots: usize) -> usize
    requires { table_words slots < 18446744073709551616 }
    ensures { result ≡ table_words slots }
{
    36 + 6 * slots
}

// How many entry slots a table of so many words has. A table too short for any has 0.
pub fn slots_of(words: usize) -> usize
    ensures { result ≡ slots_of words }
{
    words.saturating_sub(36) / 6
}

// The word of the handle of live domain k, counted from 0 at the outermost.
pub fn handle_at(k: usize) -> usize
    requires { k ≤ max_live }
    ensures { result ≡ handle_at k }
{
    8 + k
}

// The first of the two words of entry i, and the second.
pub fn first_at(slots: usize, i: usize) -> usize
    requires { (i < slots) × (slots ≤ max_slots) }
    ensures { result ≡ first_at slots i }
{
    16 + 2 * i
}

pub fn second_at(slots: usize, i: usize) -> usize
    requires { (i < slots) × (slots ≤ max_slots) }
    ensures { result ≡ second_at slots i }
{
    first_at(slots, i) + 1
}

// How many pairs there is room for.
pub fn max_pairs(slots: usize) -> usize
    requires { slots ≤ max_slots }
    ensures { result ≡ max_pairs slots }
{
    2 * slots + 10
}

// Where the entries end and the pairs begin.
pub fn pairs_at(slots: usize) -> usize
    requires { slots ≤ max_slots }
    ensures { result ≡ pairs_at slots }
{
    16 + 2 * slots
}
