// A list in the order of the cells: keys that name its ranges, sorted.
ghost use Rattle.std.specs.Prelude.{◌≡◌, ℕ, ◌+◌, ◌%◌, ◌<◌, ◌≤◌, true, length};
ghost use Rattle.words.specs.Layout.{max_cells};
ghost use Rattle.ranges.specs.Ranges.{max_ranges};
ghost use Rattle.ranges.specs.Lists.{Within, Orders, RisingBy};

use crate::{MAX_RANGES, Range};

// What a range is ordered by: its first cell, then its number, which the key so names.
fn key_of(range: &Range, i: usize) -> u32
    requires { (i < max_ranges) × (range.now.first ≤ max_cells) }
    ensures { result % max_ranges ≡ i }
{
    (MAX_RANGES * range.first as usize + i) as u32
}

// The number of the range that a key names.
pub(crate) fn number_of(key: u32) -> usize
    ensures { result ≡ key % max_ranges }
{
    key as usize % MAX_RANGES
}

// The keys of a list in the order of the cells. Only that they name every range is promised; whether the ranges so ordered rise is asked below.
pub fn order_of(list: &[Range]) -> [u32; MAX_RANGES]
    requires { (length list.now ≤ max_ranges) × Within max_cells list.now }
    ensures { Orders (length list.now) result }
{
    let mut keys = [0u32; MAX_RANGES];
    for (i, range) in list.iter().enumerate() {
        keys[i] = key_of(range, i);
    }
    keys[..list.len()].sort_unstable();
    keys
}

// Does, in this order, each range end before the next one begins? A no costs time alone, so nothing is promised of it.
pub fn is_rising(list: &[Range], order: &[u32]) -> bool
    requires { Orders (length list.now) order.now }
    ensures { result ≡ true → RisingBy list.now order.now }
{
    let mut end = 0;
    for key in &order[..list.len()] {
        let range = &list[number_of(*key)];
        if (range.first as usize) < end {
            return false;
        }
        end = range.end();
    }
    true
}
