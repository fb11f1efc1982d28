// Has memory in a cell other bytes than a domain holds of it?
ghost use Rattle.std.specs.Prelude.{◌≡◌, true, ◌+◌, ◌<◌, ◌≤◌, length};
ghost use Rattle.words.specs.Layout.{cell_at, cells_of, bodies_of, cell_size};
ghost use Rattle.words.specs.Cells.{cell_bytes, same_cell};
ghost use Rattle.table.specs.Entry.{word1, depth_of, cell_of};
ghost use Rattle.table.specs.Rule.{rule_ok};
ghost use Rattle.search.specs.Holders.{value_bytes, BodyWithin};
ghost use Rattle.values.specs.Values.{unchanged, writes, entry_changed};

use patterns::pattern_bytes;
use search::holders::{Value, source_of, value_at};
use search::notes::Noted;
use table::fields::{cell_of, depth_of, is_writable};
use table::lent::Sound;
use words::same_cell;

// Has memory in this cell the bytes of a value: those of its rule, or of its body? Either way it is one comparison of 64 bytes.
fn has_own(memory: &[u8], cell: usize, bodies: &[u8], value: Value) -> bool
    requires cell { cell_at cell + cell_size ≤ length memory.now }
    requires body { BodyWithin bodies.now value }
    ensures { result ≡ same_cell (value_bytes bodies.now value) (cell_bytes memory.now cell) }
{
    match value {
        Value::Rule(rule) => same_cell(&pattern_bytes(rule), 0, memory, cell),
        Value::Body(body) => same_cell(bodies, body as usize, memory, cell),
    }
}

// Has memory the value of the cell of entry i, which is in use?
fn is_unchanged(memory: &[u8], bodies: &[u8], table: &Sound<'_>, i: usize, notes: Noted<'_>) -> bool
    requires slot { i < table.now.entries.slots }
    requires used { 1 ≤ depth_of (word1 table.now.entries.slots table.now.entries.words.now i) }
    requires rule { rule_ok (cells_of (length memory.now)) table.now.entries.slots (bodies_of (length bodies.now)) table.now.entries.words.now ≡ true }
    ensures { let w = word1 table.now.entries.slots table.now.entries.words.now i in
        result ≡ unchanged memory.now bodies.now table.now.entries.slots table.now.entries.words.now (depth_of w) (cell_of w) }
{
    let entries = &table.entries;
    let word = entries.first_word(i);
    let Some(source) = source_of(table, i, notes) else {
        unreachable!()
    };
    has_own(memory, cell_of(word), bodies, value_at(entries, source))
}

// Is an entry with this first word a read-write one of this depth?
pub fn writes_word(word: u32, depth: u32) -> bool
    ensures { result ≡ writes depth word }
{
    (depth_of(word) == depth) & is_writable(word)
}

// Is entry i a read-write one of this depth, and has memory other bytes than its value? It is copied into its callers: most entries are told by their
// first word, and a call for each would cost as much again.
#[inline(always)]
pub fn entry_changed(
    memory: &[u8],
    bodies: &[u8],
    table: &Sound<'_>,
    depth: u32,
    i: usize,
    notes: Noted<'_>,
) -> bool
    requires sizes { (i < table.now.entries.slots) × (1 ≤ depth) }
    requires rule { rule_ok (cells_of (length memory.now)) table.now.entries.slots (bodies_of (length bodies.now)) table.now.entries.words.now ≡ true }
    ensures { result ≡ entry_changed memory.now bodies.now table.now.entries.slots table.now.entries.words.now depth i }
{
    writes_word(table.entries.first_word(i), depth)
        && !is_unchanged(memory, bodies, table, i, notes)
}
