// What the domains from a depth inwards hold, put back into memory.
//
// The cells are walked in their order, past groups of 64 that have no marks, and past runs of 8 in which no mark has one of the domains, with one
// search for the value of each cell that is put back. The mark tells the holder whose value that is, and notes tell where its entry stands.
ghost use Rattle.std.specs.Prelude.{◌≡◌, true, ℕ, ◌+◌, ◌-◌, ◌*◌, ◌≤◌, ◌<◌, min, length, take, MatchOption};
ghost use Rattle.words.specs.Layout.{cell_at, cells_of, bodies_of, max_slots, max_live, max_cells, cell_size};
ghost use Rattle.words.specs.Stores.{stores, gather};
ghost use Rattle.words.specs.Cells.{cell_plan};
ghost use Rattle.marks.specs.Blocks.{run_size, run_of};
ghost use Rattle.table.specs.Marks.{Marked};
ghost use Rattle.table.specs.Rule.{rule_ok};
ghost use Rattle.search.specs.Holders.{value_bytes, BodyWithin};
ghost use Rattle.restore.specs.Marks.{inwards, Holders, FirstDepth, Tells, Unheld};
ghost use Rattle.restore.specs.Parts.{back_plan, group_plan, PutBack};

use marks::lent::Marks;
use marks::{RUN_SIZE, spread_mask};
use patterns::pattern_bytes;
use search::holders::{Value, find_value};
use search::notes::{FEW_NOTES, MANY_NOTES, Notes};
use table::FEW_SLOTS;
use table::lent::Sound;
use words::copy_bytes;
use words::layout::{CELL_SIZE, cell_at, cells_of};

// ---- which cells are put back

// The mask of the domains from this depth inwards. It has every depth that there may be; a mark has those of live domains alone.
fn inwards_of(depth: u32) -> u8
    requires { (1 ≤ depth) × (depth ≤ max_live) }
    ensures { result ≡ inwards depth }
{
    (256 - (1u32 << depth) / 2) as u8
}

// The outermost of the domains that `held` has: depth k is bit k - 1.
fn first_depth(held: u8) -> u32
    requires { held ≡ 0 → ⊥ }
    ensures { FirstDepth held result }
{
    u64::from(held).trailing_zeros() + 1
}

// Where a group begins, passes over runs of groups without a block: most of a large memory's.
fn past_groups(marks: &Marks<'_>, from: usize, runs: usize) -> usize
    requires { (from ≤ runs) × (runs ≤ run_of max_cells) }
    ensures { (mask : ℕ) → Unheld mask marks.now.directory.seen.now from runs result }
{
    if from % RUN_SIZE != 0 {
        return from;
    }
    let g = marks
        .directory
        .past_blank(from / RUN_SIZE, runs.div_ceil(RUN_SIZE));
    (RUN_SIZE * g).min(runs)
}

// The first run of cells from `from` on that has one to be put back. It is a loop of its own, so that its numbers stay in registers.
fn next_held(marks: &Marks<'_>, from: usize, runs: usize, mask: u8) -> Option<usize>
    requires { (from ≤ runs) × (runs ≤ run_of max_cells) }
    ensures { let seen = marks.now.directory.seen.now in
        MatchOption result (Unheld mask seen from runs runs) (λ r. (r < runs) × Unheld mask seen from runs r) }
{
    let masks = spread_mask(mask);
    let mut r = past_groups(marks, from, runs);
    // stays: no plainer as a `for`, since the next run is not the next number but where `past_groups` ends.
    while r < runs {
        if marks.run_held(RUN_SIZE * r, masks) != 0 {
            return Some(r);
        }
        r = past_groups(marks, r + 1, runs);
    }
    None
}

// ---- one cell

// Puts 64 bytes back into a cell of memory, at most budget of them. It is lent the bytes that the holder holds, and no table; those of a rule
// are made first, so that they are stored as any others are, rising and many at once.
fn put_cell(bytes: &[u8], memory: &mut [u8], cell: usize, budget: usize)
    requires { (length bytes.now ≡ cell_size) × (cell_at cell + cell_size ≤ length memory.old) }
    ensures { memory.new ≡ stores (take budget (cell_plan bytes.now 0 cell)) memory.old }
{
    let at = cell_at(cell);
    copy_bytes(bytes, &mut memory[at..at + CELL_SIZE], budget);
}

// Puts the bytes of a value back into a cell of memory, at most budget of them.
fn put_value(value: Value, bodies: &[u8], memory: &mut [u8], cell: usize, budget: usize)
    requires { BodyWithin bodies.now value × (cell_at cell + cell_size ≤ length memory.old) }
    ensures { memory.new ≡ stores (take budget (cell_plan (value_bytes bodies.now value) 0 cell)) memory.old }
{
    match value {
        Value::Body(body) => {
            let at = cell_at(body as usize);
            put_cell(&bodies[at..at + CELL_SIZE], memory, cell, budget);
        }
        Value::Rule(rule) => {
            let bytes = pattern_bytes(rule);
            put_cell(&bytes, memory, cell, budget);
        }
    }
}

// ---- all cells

// What the domains from this depth inwards hold, in a right table for so many cells of memory: the marks have, of the mask, those that hold a cell.
// The notes tell where to begin a search.
#[derive(Clone, Copy)]
struct Holdings<'a, const N: usize> {
    table: &'a Sound<'a>,
    bodies: &'a [u8],
    notes: &'a Notes<N>,
    marks: &'a Marks<'a>,
    mask: u8,
    depth: u32,
    cells: usize,
    ghost noted: { N ≤ max_slots },
    ghost few: { cells ≤ max_cells },
    ghost deep: { 1 ≤ depth },
    ghost right: { rule_ok cells table.now.entries.slots (bodies_of (length bodies.now)) table.now.entries.words.now ≡ true },
    ghost told: { Tells table.now.entries.slots table.now.entries.words.now depth mask marks.now.directory.seen.now },
}

impl<'a, const N: usize> Holdings<'a, N> {
    // Puts a cell back where it is held, at most budget bytes of it, and gives how many bytes that is uncut. `held` has the domains that hold it,
    // so that the search begins at the first of them and looks for no other's entry.
    fn put_held(&self, memory: &mut [u8], cell: usize, held: u8, budget: usize) -> usize
        requires { let t = self.now.table.now.entries in
            (cell < self.now.cells) × (cells_of (length memory.old) ≡ self.now.cells) × Holders t.slots t.words.now self.now.depth cell held }
        ensures { let t = self.now.table.now.entries in
            PutBack (back_plan t.slots t.words.now self.now.depth self.now.bodies.now cell) 1 budget memory.old result memory.new }
    {
        if held == 0 {
            return 0;
        }
        let Some(found) = find_value(
            self.table,
            first_depth(held),
            cell as u32,
            self.notes.lent(),
        ) else {
            return 0;
        };
        put_value(found.value, self.bodies, memory, cell, budget);
        CELL_SIZE
    }

    // Puts back the held cells of run r, in their order, and gives how many bytes that is uncut.
    fn put_run(&self, memory: &mut [u8], r: usize, budget: usize) -> usize
        requires { (run_size * r < self.now.cells) × (cells_of (length memory.old) ≡ self.now.cells) }
        ensures { let t = self.now.table.now.entries in let n = min run_size (self.now.cells - run_size * r) in
            PutBack (group_plan t.slots t.words.now self.now.depth self.now.bodies.now (run_size * r) n) n budget memory.old result memory.new }
    {
        let from = RUN_SIZE * r;
        let mut rest = self.marks.run_held(from, spread_mask(self.mask));
        let mut bytes: usize = 0;
        for j in 0..RUN_SIZE.min(self.cells - from) {
            bytes += self.put_held(
                memory,
                from + j,
                (rest % 256) as u8,
                budget.saturating_sub(bytes),
            );
            rest /= 256;
        }
        bytes
    }

    // Puts back every held cell, in the order of the cells, and gives how many bytes that is uncut.
    fn put_back(&self, memory: &mut [u8], budget: usize) -> usize
        requires { cells_of (length memory.old) ≡ self.now.cells }
        ensures { let t = self.now.table.now.entries in
            PutBack (gather self.now.cells (back_plan t.slots t.words.now self.now.depth self.now.bodies.now)) max_cells budget memory.old result memory.new }
    {
        let runs = self.cells.div_ceil(RUN_SIZE);
        let mut bytes: usize = 0;
        let mut from: usize = 0;
        while let Some(r) = next_held(self.marks, from, runs, self.mask) {
            bytes += self.put_run(memory, r, budget.saturating_sub(bytes));
            from = r + 1;
        }
        bytes
    }
}

// Restore's part on memory, and its steps uncut, by the marks of all entries and with room for so many notes.
fn memory_with<const N: usize>(
    memory: &mut [u8],
    bodies: &[u8],
    table: &Sound<'_>,
    depth: u32,
    marks: &Marks<'_>,
    budget: usize,
) -> usize
    requires sizes { (N ≤ MANY_NOTES) × (1 ≤ depth) × (depth ≤ max_live) × (cells_of (length memory.old) ≤ max_cells) }
    requires right { let t = table.now.entries in rule_ok (cells_of (length memory.old)) t.slots (bodies_of (length bodies.now)) t.words.now ≡ true }
    requires marks { let t = table.now.entries in Marked t.slots t.words.now t.slots marks.now.directory.seen.now }
    ensures { let t = table.now.entries in
        PutBack (gather (cells_of (length memory.old)) (back_plan t.slots t.words.now depth bodies.now)) max_cells budget memory.old result memory.new }
{
    let mut notes = Notes::<N>::none();
    notes.note(&table.entries);
    let held = Holdings {
        table,
        bodies,
        notes: &notes,
        marks,
        mask: inwards_of(depth),
        depth,
        cells: cells_of(memory.len()),
    };
    held.put_back(memory, budget)
}

// Restore's part on memory, and its steps uncut.
pub fn put_memory(
    memory: &mut [u8],
    bodies: &[u8],
    table: &Sound<'_>,
    depth: u32,
    marks: &Marks<'_>,
    budget: usize,
) -> usize
    requires sizes { (1 ≤ depth) × (depth ≤ max_live) × (cells_of (length memory.old) ≤ max_cells) }
    requires right { let t = table.now.entries in rule_ok (cells_of (length memory.old)) t.slots (bodies_of (length bodies.now)) t.words.now ≡ true }
    requires marks { let t = table.now.entries in Marked t.slots t.words.now t.slots marks.now.directory.seen.now }
    ensures { let t = table.now.entries in
        PutBack (gather (cells_of (length memory.old)) (back_plan t.slots t.words.now depth bodies.now)) max_cells budget memory.old result memory.new }
{
    if table.entries.top <= FEW_SLOTS {
        memory_with::<FEW_NOTES>(memory, bodies, table, depth, marks, budget)
    } else {
        memory_with::<MANY_NOTES>(memory, bodies, table, depth, marks, budget)
    }
}
