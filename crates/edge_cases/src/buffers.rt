// The buffers of the store that is played, and copies of it: of the one that was kept, the one that the whole call left, and the one before a call.
use crate::acts::{Lengths, Shape};
use crate::calls::{Lent, Seen};
use crate::holdings::front_of;

// What a copy has of memory and bodies in bytes, and of the table in words: m = E = B = 16, which the largest store of a scene needs.
const MEMORY: usize = 1024;

const BODIES: usize = 1024;

const TABLE: usize = 132;

// Bodies and table are as long as document 01's length edges ask, one body and one entry more than allowed. (A memory of 65,536 cells, 4 MiB, is
// more than a stack should hold.)
const LONGEST_BODIES: usize = 262208;

const LONGEST_TABLE: usize = 24618;

#[derive(Drop)]
pub struct Buffers {
    memory: [u8; MEMORY],
    bodies: [u8; LONGEST_BODIES],
    table: [u32; LONGEST_TABLE],
}

#[derive(Clone, Copy, PartialEq, Eq, Debug)]
pub struct Snapshot {
    pub memory: [u8; MEMORY],
    pub bodies: [u8; BODIES],
    table: [u32; TABLE],
}

impl Buffers {
    pub fn new() -> Buffers {
        Buffers {
            memory: [0; MEMORY],
            bodies: [0; LONGEST_BODIES],
            table: [0; LONGEST_TABLE],
        }
    }

    // So much of them as is to be lent, as far as they reach.
    pub fn lent(&mut self, lengths: Lengths) -> Lent<'_> {
        Lent {
            memory: start_of(&mut self.memory, lengths.memory),
            bodies: start_of(&mut self.bodies, lengths.bodies),
            table: start_of(&mut self.table, lengths.words),
        }
    }

    pub fn seen(&self, lengths: Lengths) -> Seen<'_> {
        Seen {
            memory: &self.memory[..lengths.memory.min(MEMORY)],
            bodies: &self.bodies[..lengths.bodies.min(LONGEST_BODIES)],
            table: &self.table[..lengths.words.min(LONGEST_TABLE)],
        }
    }

    pub fn snapshot(&self) -> Snapshot {
        let mut bodies = [0; BODIES];
        let mut table = [0; TABLE];
        bodies.copy_from_slice(&self.bodies[..BODIES]);
        table.copy_from_slice(&self.table[..TABLE]);
        Snapshot {
            memory: self.memory,
            bodies,
            table,
        }
    }

    pub fn bring_back(&mut self, snapshot: &Snapshot) {
        self.memory = snapshot.memory;
        self.bodies[..BODIES].copy_from_slice(&snapshot.bodies);
        self.table[..TABLE].copy_from_slice(&snapshot.table);
    }
}

fn start_of<T, const N: usize>(all: &mut [T; N], n: usize) -> &mut [T] {
    &mut all[..n.min(N)]
}

// ---- buffers filled

impl Buffers {
    // Bodies are filled with a byte that no scene writes, so that a body that was never taken shows.
    pub fn fill(&mut self, shape: Shape) {
        for four in self.memory.chunks_exact_mut(4 * 64) {
            for (cell, byte) in four.chunks_exact_mut(64).zip(shape.bytes) {
                cell.fill(byte);
            }
        }
        self.bodies[..BODIES].fill(255);
    }

    // A cell of memory, if there is such a one.
    fn cell_mut(&mut self, cell: u32) -> Option<&mut [u8]> {
        let at = 64 * cell as usize;
        self.memory.get_mut(at..at + 64)
    }

    // Fills a cell with four bytes in turn.
    pub fn write(&mut self, cell: u32, bytes: [u8; 4]) {
        if let Some(cell) = self.cell_mut(cell) {
            for four in cell.chunks_exact_mut(4) {
                four.copy_from_slice(&bytes);
            }
        }
    }

    // Fills a cell with 0, 1, 2 and so on to 63.
    pub fn rise(&mut self, cell: u32) {
        if let Some(cell) = self.cell_mut(cell) {
            for (i, byte) in (0u8..64).zip(cell) {
                *byte = i;
            }
        }
    }

    pub fn write_byte(&mut self, cell: u32, place: u32, byte: u8) {
        let at = 64 * cell as usize + place as usize;
        if let Some(old) = self.memory.get_mut(at) {
            *old = byte;
        }
    }

    pub fn set_word(&mut self, word: u32, value: u32) {
        if let Some(old) = self.table.get_mut(word as usize) {
            *old = value;
        }
    }
}

// ---- copies compared

// Has the store each word and byte of the whole call's, or the words in front of the pairs of the one that was kept? Its table has so many words.
pub fn likeness(now: &Snapshot, kept: &Snapshot, left: &Snapshot, words: usize) -> &'static str {
    if now.bodies == left.bodies && now.table.get(..words) == left.table.get(..words) {
        return "each word as the whole call leaves it";
    }
    let front = front_of(words);
    if now.table.get(..front) == kept.table.get(..front) {
        return "the words as before";
    }
    "neither as before nor as the whole call leaves it"
}

// Has memory, or have the bodies, the first n bytes of the whole call's, and else those that were kept?
pub fn is_prefix(now: &[u8], left: &[u8], kept: &[u8], n: usize) -> bool {
    now.get(..n) == left.get(..n) && now.get(n..) == kept.get(n..)
}
