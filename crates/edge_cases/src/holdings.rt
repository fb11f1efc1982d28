// What a store holds: memory, the live domains, and the entries in their order.
use crate::calls::Seen;
use crate::told::{Bytes, Live};
use std::fmt;

// An entry's two words, and the bodies that it may be copied into.
#[derive(Clone, Copy)]
struct Entry<'a> {
    first: u32,
    second: u32,
    bodies: &'a [u8],
}

// An entry's first word has the depth in bits 28 to 31, bit 27 for read-write, bit 26 for via parent, bit 25 for a rule and the cell in bits 0 to 15.
const READ_WRITE: u32 = 1 << 27;

const VIA_PARENT: u32 = 1 << 26;

const BY_RULE: u32 = 1 << 25;

impl fmt::Display for Entry<'_> {
    fn fmt<W: fmt::Write>(&self, f: &mut fmt::Formatter<W>) -> fmt::Result {
        let first = self.first;
        let second = self.second;
        let depth = first >> 28;
        let cell = first & 0xffff;
        let label = if first & READ_WRITE != 0 {
            "read-write"
        } else {
            "read-only"
        };
        write!(f, "depth {depth} holds cell {cell} {label}")?;
        if first & VIA_PARENT != 0 {
            return write!(f, " via parent");
        }
        if first & BY_RULE != 0 {
            return write!(f, " by rule {second}");
        }
        write!(f, " copied as")?;
        if let Some(body) = self.bodies.chunks_exact(64).nth(second as usize) {
            write!(f, " {}", Bytes(body))?;
        }
        write!(f, " in body {second}")
    }
}

// How many words stand in front of the pairs: 16 + 2E of 36 + 6E.
pub fn front_of(words: usize) -> usize {
    if words < 36 {
        return 0;
    }
    16 + (words - 36) / 6 * 2
}

// The entries stand from word 16 on, two words each; free ones are 0.
impl fmt::Display for Seen<'_> {
    fn fmt<W: fmt::Write>(&self, f: &mut fmt::Formatter<W>) -> fmt::Result {
        write!(f, "memory")?;
        for cell in self.memory.chunks_exact(64) {
            write!(f, " {}", Bytes(cell))?;
        }
        match self.list() {
            Ok(listing) => write!(f, "; {}", Live(listing))?,
            Err(why) => write!(f, "; list refused with {}", why.number())?,
        }
        let bodies = self.bodies;
        let end = front_of(self.table.len());
        for words in self.table.get(16..end).unwrap_or(&[]).chunks_exact(2) {
            let [first, second] = *words else { continue };
            if first != 0 {
                write!(
                    f,
                    "; {}",
                    Entry {
                        first,
                        second,
                        bodies
                    }
                )?;
            }
        }
        Ok(())
    }
}
