// Cells that follow a pattern: the byte of a rule at an index, and the 64 bytes of a rule. What stores, compares and shows a pattern rests on
// these two.
#![tactic(auto)]

ghost use Rattle.std.specs.Prelude.{◌≡◌, ◌<◌};
ghost use Rattle.words.specs.Layout.{cell_size};
ghost use Rattle.patterns.specs.Pattern.{pattern_byte, pattern};

use words::layout::CELL_SIZE;

// The highest rule number.
pub const MAX_RULE: u32 = 3;

// Byte i of a rule. Numbers above the highest are refused before this is asked.
// stays: a rule's byte is a `match` on the rule's number, as the definition is (`pattern_byte`) and as the words of the table name the rules
#[tactic(auto, unfolding(crate::specs::Pattern::pattern_byte))]
pub fn pattern_byte(rule: u32, i: usize) -> u8
    requires { i < cell_size }
    ensures { result ≡ pattern_byte rule i }
{
    match rule {
        0 => 0,
        1 => 255,
        2 => i as u8,
        _ => {
            let k = i % 4;
            match k {
                2 => 128,
                3 => 63,
                _ => 0,
            }
        }
    }
}

// The 64 bytes of a rule, made here and then stored or compared as any other bytes are.
pub fn pattern_bytes(rule: u32) -> [u8; CELL_SIZE]
    ensures { result ≡ pattern rule }
{
    let mut bytes = [0u8; CELL_SIZE];
    for (i, byte) in bytes.iter_mut().enumerate() {
        *byte = pattern_byte(rule, i);
    }
    bytes
}
