// The questions on the ranges of a list, one range after the other. Cells that those before a range name it finds held, which these tell themselves:
// no mark is changed.
ghost use Rattle.std.specs.Prelude.{◌≡◌, true, not, ◌||◌, ℕ, ◌+◌, ◌≤◌, ◌<◌, length, IfOk};
ghost use Rattle.words.specs.Layout.{cells_of, bodies_of, max_cells, max_live, cell_size};
ghost use Rattle.words.specs.Scan.{count};
ghost use Rattle.marks.specs.Blocks.{cells_in};
ghost use Rattle.table.specs.Entry.{parent, kind_number};
ghost use Rattle.model.specs.Holdings.{list_checks};
ghost use Rattle.store.specs.Answer.{number_in};
ghost use Rattle.store.specs.State.{state_in};
ghost use Rattle.add.specs.Add.{is_new, is_new_copy};
ghost use Rattle.add.specs.Walking.{lacks, follows, told_by, cell_told, Source, Counted, copies_of, room_check};
ghost use Rattle.add.specs.Asked.{table_of, slots_in, depth_in, newly, Lies, new_count, all_backed, all_follow, same_number, parent_number, rule_number, values_number, part_number};

use crate::asked::Asking;
use crate::part::Part;
use marks::{has_depth, mark_of};
use patterns::{MAX_RULE, pattern_bytes};
use ranges::Range;
use ranges::list::{earlier, is_named};
use search::holders::{Value, find_source, value_at};
use search::notes::{FEW_NOTES, MANY_NOTES, Notes};
use search::places::count_used;
use store::answers::Refusal;
use store::questions::range_check;
use table::FEW_SLOTS;
use table::domains::parent_of;
use table::fields::{Kind, Label};
use words::layout::{LIVE_AT, bodies_of, cells_of};
use words::same_cell;

// For fewer cells there is no room for notes, and none are made.
const NO_NOTES: usize = 1;

// From so many cells on, notes are made. They cost a pass over the entries, and clearing the room for them; without them the search for one cell
// takes half a pass.
const NOTED_CELLS: u32 = 8;

// How many cells a list newly takes, and how many of them as copies.
#[derive(Clone, Copy, PartialEq, Eq, Debug)]
pub struct New {
    pub cells: usize,
    pub copies: usize,
}

// Does the domain at this depth not hold the cell?
pub fn is_lacking(held: &[u8], depth: u32, cell: usize) -> bool
    requires { (cell < cells_in held.now) × (depth ≤ max_live) }
    ensures { result ≡ lacks held.now depth cell }
{
    !has_depth(mark_of(held, cell), depth)
}

// How many of so many new cells of one kind are copies.
fn copies_of(kind: Kind, new: usize) -> usize
    ensures { result ≡ copies_of (kind_number kind) new }
{
    match kind {
        Kind::Copy => new,
        _ => 0,
    }
}

// What one cell tells: has memory the bytes of its value, and comes that from a rule?
fn told(same: bool, by_rule: bool) -> Result<bool, Refusal>
    ensures { result ≡ told_by same by_rule }
{
    if same {
        Ok(by_rule)
    } else {
        Err(Refusal::MemoryDiffers)
    }
}

impl<'a> Asking<'a> {
    // The depth of the domain that is added to: the innermost.
    fn depth(&self) -> u32
        ensures { result ≡ depth_in self.now }
    {
        self.table.entries.words[LIVE_AT]
    }

    // Is the cell new to a range behind these ranges: not held, and named by none of them?
    fn is_new(&self, seen: &[Range], cell: usize) -> bool
        requires { cell < max_cells }
        ensures { result ≡ newly self.now seen.now cell }
    {
        if !is_lacking(self.held, self.depth(), cell) {
            return false;
        }
        !is_named(seen, cell)
    }

    // How many cells of the range are new.
    fn count_new(&self, part: &Part<'_>) -> usize
        requires { Lies self.now part.now }
        ensures { result ≡ new_count self.now part.now }
    {
        let mut new: usize = 0;
        for j in 0..part.range.count as usize {
            new += usize::from(self.is_new(part.seen, part.range.first as usize + j));
        }
        new
    }

    // Does the parent hold every new cell of the range? Depth 0, the outermost domain's parent, holds none.
    fn parent_holds(&self, part: &Part<'_>) -> bool
        requires { Lies self.now part.now }
        ensures { result ≡ all_backed self.now part.now }
    {
        let parent = parent_of(self.depth());
        for j in 0..part.range.count as usize {
            let cell = part.range.first as usize + j;
            if self.is_new(part.seen, cell) & is_lacking(self.held, parent, cell) {
                return false;
            }
        }
        true
    }

    // Has memory the value that the parent holds of a cell, and does that come from a rule? The notes tell of places to begin the search at.
    fn value_told<const N: usize>(&self, cell: usize, notes: &Notes<N>) -> Result<bool, Refusal>
        requires cell { cell < cells_of (length self.now.memory.now) }
        requires source { Source (slots_in self.now) (table_of self.now) self.now.bodies.now (parent (depth_in self.now)) cell }
        ensures { result ≡ cell_told self.now.memory.now self.now.bodies.now (slots_in self.now) (table_of self.now) (depth_in self.now) (λ c. true) cell }
    {
        let depth = parent_of(self.depth());
        let Some(source) = find_source(&self.table.entries, depth, cell as u32, notes.lent()) else {
            unreachable!()
        };
        match value_at(&self.table.entries, source) {
            Value::Body(body) => told(
                same_cell(self.bodies, body as usize, self.memory, cell),
                false,
            ),
            Value::Rule(rule) => told(same_cell(&pattern_bytes(rule), 0, self.memory, cell), true),
        }
    }

    // The same of a cell that may be new. Of one that is not this is not asked.
    fn cell_told<const N: usize>(
        &self,
        seen: &[Range],
        cell: usize,
        notes: &Notes<N>,
    ) -> Result<bool, Refusal>
        requires cell { cell < cells_of (length self.now.memory.now) }
        requires source { newly self.now seen.now cell ≡ true
            → Source (slots_in self.now) (table_of self.now) self.now.bodies.now (parent (depth_in self.now)) cell }
        ensures { result ≡ cell_told self.now.memory.now self.now.bodies.now (slots_in self.now) (table_of self.now) (depth_in self.now)
            (newly self.now seen.now) cell }
    {
        if self.is_new(seen, cell) {
            self.value_told(cell, notes)
        } else {
            Ok(false)
        }
    }

    // Questions 12 and 19 of every new cell of the range: 12 where memory has not the parent's value of one of them; if it has all of them, 19 where
    // one comes from a rule.
    fn values_check<const N: usize>(&self, part: &Part<'_>, notes: &Notes<N>) -> Result<(), Refusal>
        requires lies { Lies self.now part.now }
        requires backed { all_backed self.now part.now ≡ true }
        ensures { number_in result ≡ same_number self.now part.now }
    {
        let mut ruled = false;
        for j in 0..part.range.count as usize {
            let by_rule = self.cell_told(part.seen, part.range.first as usize + j, notes)?;
            ruled = ruled | by_rule;
        }
        if ruled {
            return Err(Refusal::ParentHoldsByRule);
        }
        Ok(())
    }

    // The same with notes in so many buckets.
    fn values_with<const N: usize>(&self, part: &Part<'_>) -> Result<(), Refusal>
        requires lies { Lies self.now part.now × (N ≤ MANY_NOTES) }
        requires backed { all_backed self.now part.now ≡ true }
        ensures { number_in result ≡ same_number self.now part.now }
    {
        let mut notes = Notes::<N>::none();
        notes.note(&self.table.entries);
        self.values_check(part, &notes)
    }

    // The same with notes by how many cells there are, and how many entries.
    fn range_values(&self, part: &Part<'_>) -> Result<(), Refusal>
        requires lies { Lies self.now part.now }
        requires backed { all_backed self.now part.now ≡ true }
        ensures { number_in result ≡ same_number self.now part.now }
    {
        if part.range.count < NOTED_CELLS {
            self.values_with::<NO_NOTES>(part)
        } else if self.table.entries.top <= FEW_SLOTS {
            self.values_with::<FEW_NOTES>(part)
        } else {
            self.values_with::<MANY_NOTES>(part)
        }
    }

    // Questions 11, 12 and 19, which are put for via parent.
    fn parent_check(&self, part: &Part<'_>) -> Result<(), Refusal>
        requires { Lies self.now part.now }
        ensures { number_in result ≡ parent_number self.now part.now }
    {
        if !self.parent_holds(part) {
            return Err(Refusal::ParentLacksCell);
        }
        self.range_values(part)
    }

    // Has memory these 64 bytes in a cell? Of one that is not new this is not asked.
    fn cell_follows(&self, bytes: &[u8], seen: &[Range], cell: usize) -> bool
        requires { (length bytes.now ≡ cell_size) × (cell < cells_of (length self.now.memory.now)) }
        ensures { result ≡ follows self.now.memory.now bytes.now (newly self.now seen.now) cell }
    {
        if !self.is_new(seen, cell) {
            return true;
        }
        same_cell(bytes, 0, self.memory, cell)
    }

    // The same of every new cell of the range.
    fn range_follows(&self, bytes: &[u8], part: &Part<'_>) -> bool
        requires { (length bytes.now ≡ cell_size) × Lies self.now part.now }
        ensures { result ≡ all_follow self.now bytes.now part.now }
    {
        for j in 0..part.range.count as usize {
            if !self.cell_follows(bytes, part.seen, part.range.first as usize + j) {
                return false;
            }
        }
        true
    }

    // Question 18, which is put for a rule: is there such a rule, and has memory its bytes in every new cell? The bytes are made once.
    fn rule_check(&self, part: &Part<'_>) -> Result<(), Refusal>
        requires { Lies self.now part.now }
        ensures { number_in result ≡ rule_number self.now part.now }
    {
        if MAX_RULE < part.range.rule {
            return Err(Refusal::PatternDiffers);
        }
        let bytes = pattern_bytes(part.range.rule);
        if !self.range_follows(&bytes, part) {
            return Err(Refusal::PatternDiffers);
        }
        Ok(())
    }

    // Questions 11, 12, 18 and 19: those on values, by the kind. A copy is put none of them.
    fn value_check(&self, part: &Part<'_>, kind: Kind) -> Result<(), Refusal>
        requires { Lies self.now part.now }
        ensures { number_in result ≡ values_number self.now part.now (kind_number kind) }
    {
        match kind {
            Kind::Copy => Ok(()),
            Kind::ViaParent => self.parent_check(part),
            Kind::ByRule => self.rule_check(part),
        }
    }

    // All the questions on a range: 7, 8, 11, 12, 18 and 19. Gives its kind.
    #[tactic(auto, using(store::proofs::Refused::asking))]
    fn part_check(&self, part: &Part<'_>) -> Result<Kind, Refusal>
        ensures no { number_in result ≡ part_number self.now part.now }
        ensures kind { IfOk result (λ k. (kind_number k ≡ part.now.range.kind) × Lies self.now part.now) }
    {
        let Ok(kind) = Kind::try_from(part.range.kind) else {
            return Err(Refusal::KindOrLabel);
        };
        if Label::try_from(part.range.label).is_err() {
            return Err(Refusal::KindOrLabel);
        }
        range_check(
            cells_of(self.memory.len()),
            part.range.first as usize,
            part.range.count as usize,
        )?;
        self.value_check(part, kind)?;
        Ok(kind)
    }

    // The questions on each range of the list, in its order, and how many cells are newly held. It is the one walk over the lent list that asks.
    #[tactic(auto, using(store::proofs::Refused::asking))]
    fn ranges_check(&self, list: &[Range]) -> Result<New, Refusal>
        ensures no { number_in result ≡ list_checks (cells_of (length self.now.memory.now)) self.now.memory.now list.now
            (state_in (slots_in self.now) (table_of self.now) self.now.bodies.now) 0 }
        ensures counted { IfOk result (λ n. Counted (cells_of (length self.now.memory.now)) (slots_in self.now) (table_of self.now) list.now n.cells n.copies) }
    {
        let mut cells: usize = 0;
        let mut copies: usize = 0;
        for (i, range) in list.iter().enumerate() {
            let part = Part {
                range: *range,
                seen: earlier(list, i),
            };
            let kind = self.part_check(&part)?;
            let more = self.count_new(&part);
            let taken = copies_of(kind, more);
            cells += more;
            copies += taken;
        }
        Ok(New { cells, copies })
    }

    // Questions 16 and 17, for so many new cells and copies among them.
    fn room_check(&self, new: &New) -> Result<(), Refusal>
        requires { (new.now.cells ≤ max_cells) × (new.now.copies ≤ max_cells) }
        ensures { number_in result ≡ room_check (slots_in self.now) (table_of self.now) (bodies_of (length self.now.bodies.now)) new.now.cells new.now.copies }
    {
        let in_use = count_used(&self.table.entries);
        if self.table.entries.slots < in_use.entries + new.cells {
            return Err(Refusal::NoFreeEntry);
        }
        if bodies_of(self.bodies.len()) < in_use.copies + new.copies {
            return Err(Refusal::NoFreeBody);
        }
        Ok(())
    }

    // The questions on each range, and then those on room, once for the whole list.
    #[tactic(auto, using(store::proofs::Refused::asking))]
    pub fn list_check(&self, list: &[Range]) -> Result<New, Refusal>
        ensures no { number_in result ≡ list_checks (cells_of (length self.now.memory.now)) self.now.memory.now list.now
            (state_in (slots_in self.now) (table_of self.now) self.now.bodies.now)
            (room_check (slots_in self.now) (table_of self.now) (bodies_of (length self.now.bodies.now))
            (count (cells_of (length self.now.memory.now)) (is_new (slots_in self.now) (table_of self.now) list.now))
            (count (cells_of (length self.now.memory.now)) (is_new_copy (slots_in self.now) (table_of self.now) list.now))) }
        ensures counted { IfOk result (λ n. Counted (cells_of (length self.now.memory.now)) (slots_in self.now) (table_of self.now) list.now n.cells n.copies) }
    {
        let new = self.ranges_check(list)?;
        self.room_check(&new)?;
        Ok(new)
    }
}
