// The cells of a list, in their order: each new one takes the next free slot and, as a copy, the next free body, into which its bytes go.
ghost use Rattle.std.specs.Prelude.{◌≡◌, true, [], cond, ℕ, ◌+◌, ◌-◌, ◌*◌, ◌≤◌, ◌<◌, length, take};
ghost use Rattle.words.specs.Layout.{cells_of, max_cells, max_bodies, cell_size, group_at};
ghost use Rattle.words.specs.Stores.{stores};
ghost use Rattle.table.specs.Changes.{Change};
ghost use Rattle.table.specs.Entry.{kind_number, label_number, live};
ghost use Rattle.ranges.specs.Lists.{Next};
ghost use Rattle.search.specs.Free.{unmarked_from};
ghost use Rattle.changes.specs.Staged.{Stages};
ghost use Rattle.add.specs.Walking.{lacks, body_beyond, list_change, stand, took_cell, passed_cell, cell_bytes_of, TookEntry, RoomForCell, bytes_of};
ghost use Rattle.add.specs.Took.{words_lent, slots_lent, places, ranges_lent, last_taken, Stands, Copies, AsksEach};

use crate::checks::is_lacking;
use crate::cursors::Cursors;
use crate::taking::Taking;
use changes::staged::Staged;
use ranges::order::order_of;
use ranges::segments::{Segment, Segments};
use search::places::{next_free_body, next_free_slot};
use table::fields::{Kind, Label};
use words::copy_cell;
use words::layout::{LIVE_AT, bodies_of};

// What the list asks for each cell of a segment.
#[derive(Clone, Copy, PartialEq, Eq, Debug)]
pub struct Asked {
    pub kind: Kind,
    pub rule: u32,
    pub label: Label,
}

// The body of a new entry: the lowest without a mark from `from` on; for other kinds than copies the place stays.
fn take_body(used: &[u8], bodies: usize, kind: Kind, from: usize) -> usize
    requires small { (bodies ≤ length used.now) × (from ≤ bodies) }
    requires left { kind_number kind ≡ 0 → unmarked_from bodies used.now from < bodies }
    ensures { result ≡ body_beyond used.now bodies (kind_number kind) from }
{
    if kind != Kind::Copy {
        return from;
    }
    let Some(body) = next_free_body(used, bodies, from) else {
        unreachable!()
    };
    body
}

impl<'a, 't> Taking<'a, 't> {
    // A new cell of a segment of the list takes the next free slot and, as a copy, the next free body, into which its bytes go.
    fn take_new<const WORDS: usize, const BITS: usize>(
        &self,
        bodies: &mut [u8],
        staged: &mut Staged<WORDS, BITS>,
        cell: usize,
        asked: Asked,
        walk: Cursors,
        budget: usize,
    ) -> Cursors
        requires bodies { length bodies.old ≡ self.now.room }
        requires cell { (cell < cells_of (length self.now.memory.now)) × (walk.made ≤ cell_size * cell) }
        requires places { (walk.slot ≤ slots_lent self.now) × (walk.body ≤ places self.now) }
        requires room { RoomForCell (slots_lent self.now) (places self.now) (words_lent self.now) self.now.used.now (kind_number asked.kind) (stand cell walk)
            staged.old.words staged.old.changed }
        ensures next { stand (cell + 1) result
            ≡ took_cell (slots_lent self.now) (places self.now) (words_lent self.now) self.now.used.now (kind_number asked.kind) (stand cell walk) }
        ensures bytes { bodies.new ≡ stores (take (budget - walk.made)
            (cell_bytes_of (places self.now) self.now.memory.now self.now.used.now (kind_number asked.kind) (stand cell walk))) bodies.old }
        ensures staged { TookEntry true (slots_lent self.now) (places self.now) (words_lent self.now) self.now.used.now (kind_number asked.kind) asked.rule
            (label_number asked.label) (stand cell walk) staged.old.words staged.old.changed staged.new.words staged.new.changed }
    {
        let Some(slot) = next_free_slot(&self.entries, walk.slot) else {
            unreachable!()
        };
        let body = take_body(self.used, bodies_of(self.room), asked.kind, walk.body);
        if asked.kind == Kind::Copy {
            copy_cell(
                self.memory,
                cell,
                bodies,
                body,
                budget.saturating_sub(walk.made),
            );
        }
        let depth = self.entries.words[LIVE_AT];
        let word = asked.kind.entry_word(depth, asked.label, cell as u32);
        staged.stage_entry(slot, word, asked.kind.second_of(asked.rule, body as u32));
        walk.beyond(asked.kind, slot, body)
    }

    // One cell of a segment of the list; one that is held is passed over.
    fn take_cell<const WORDS: usize, const BITS: usize>(
        &self,
        bodies: &mut [u8],
        staged: &mut Staged<WORDS, BITS>,
        cell: usize,
        asked: Asked,
        walk: Cursors,
        budget: usize,
    ) -> Cursors
        requires bodies { length bodies.old ≡ self.now.room }
        requires cell { (cell < cells_of (length self.now.memory.now)) × (walk.made ≤ cell_size * cell) }
        requires places { (walk.slot ≤ slots_lent self.now) × (walk.body ≤ places self.now) }
        requires room { lacks self.now.held.now (live (words_lent self.now)) cell ≡ true
            → RoomForCell (slots_lent self.now) (places self.now) (words_lent self.now) self.now.used.now (kind_number asked.kind) (stand cell walk)
            staged.old.words staged.old.changed }
        ensures next { stand (cell + 1) result ≡ cond (lacks self.now.held.now (live (words_lent self.now)) cell)
            (took_cell (slots_lent self.now) (places self.now) (words_lent self.now) self.now.used.now (kind_number asked.kind) (stand cell walk))
            (passed_cell (stand cell walk)) }
        ensures bytes { bodies.new ≡ stores (take (budget - walk.made) (cond (lacks self.now.held.now (live (words_lent self.now)) cell)
            (cell_bytes_of (places self.now) self.now.memory.now self.now.used.now (kind_number asked.kind) (stand cell walk)) [])) bodies.old }
        ensures staged { TookEntry (lacks self.now.held.now (live (words_lent self.now)) cell) (slots_lent self.now) (places self.now) (words_lent self.now)
            self.now.used.now (kind_number asked.kind) asked.rule (label_number asked.label) (stand cell walk)
            staged.old.words staged.old.changed staged.new.words staged.new.changed }
    {
        if !is_lacking(self.held, self.entries.words[LIVE_AT], cell) {
            return walk;
        }
        self.take_new(bodies, staged, cell, asked, walk, budget)
    }

    // The cells from `at` to before `end`, for each of which the same is asked.
    fn take_run<const WORDS: usize, const BITS: usize>(
        &self,
        bodies: &mut [u8],
        staged: &mut Staged<WORDS, BITS>,
        at: usize,
        end: usize,
        asked: Asked,
        mut walk: Cursors,
        budget: usize,
    ) -> Cursors
        requires bodies { length bodies.old ≡ self.now.room }
        requires asks { AsksEach self.now at end asked }
        requires stands { Stands self.now bodies.old (stand at walk) staged.old.words staged.old.changed }
        requires room { last_taken self.now ≤ group_at BITS }
        ensures stands { Stands self.now bodies.new (stand end result) staged.new.words staged.new.changed }
        ensures copied { Copies self.now budget (stand at walk) (stand end result) bodies.old bodies.new }
    {
        for cell in at..end {
            walk = self.take_cell(bodies, staged, cell, asked, walk, budget);
        }
        walk
    }

    // The next segment of the list, in the order of the cells.
    fn take_part<const WORDS: usize, const BITS: usize>(
        &self,
        bodies: &mut [u8],
        staged: &mut Staged<WORDS, BITS>,
        part: &Segment,
        walk: Cursors,
        budget: usize,
    ) -> Cursors
        requires bodies { length bodies.old ≡ self.now.room }
        requires next { Next self.now.list.cells (ranges_lent self.now) part.now.at part.now }
        requires stands { Stands self.now bodies.old (stand part.now.at walk) staged.old.words staged.old.changed }
        requires room { last_taken self.now ≤ group_at BITS }
        ensures stands { Stands self.now bodies.new (stand part.now.end result) staged.new.words staged.new.changed }
        ensures copied { Copies self.now budget (stand part.now.at walk) (stand part.now.end result) bodies.old bodies.new }
    {
        let Ok(kind) = Kind::try_from(part.range.kind) else {
            unreachable!()
        };
        let label = if part.writable {
            Label::ReadWrite
        } else {
            Label::ReadOnly
        };
        let asked = Asked {
            kind,
            rule: part.range.rule,
            label,
        };
        self.take_run(bodies, staged, part.at, part.end, asked, walk, budget)
    }

    // All the new cells of the list. Returns how many bytes there are, uncut.
    pub fn take_cells<const WORDS: usize, const BITS: usize>(
        &self,
        bodies: &mut [u8],
        staged: &mut Staged<WORDS, BITS>,
        budget: usize,
    ) -> usize
        requires bodies { length bodies.old ≡ self.now.room }
        requires room { last_taken self.now ≤ group_at BITS }
        requires blank { (f : ℕ → Change) → Stages 0 f staged.old.words staged.old.changed }
        ensures staged { Stages (slots_lent self.now) (list_change (cells_of (length self.now.memory.now)) (slots_lent self.now) (places self.now)
            (words_lent self.now) (ranges_lent self.now) 0) staged.new.words staged.new.changed }
        ensures bytes { bodies.new ≡ stores (take budget (bytes_of self.now.memory.now bodies.old (words_lent self.now) (ranges_lent self.now))) bodies.old }
        ensures steps { (result ≡ length (bytes_of self.now.memory.now bodies.old (words_lent self.now) (ranges_lent self.now)))
            × (result ≤ cell_size * cells_of (length self.now.memory.now)) }
    {
        let order = order_of(self.list.ranges);
        let mut segments = Segments::of(self.list, &order);
        let mut walk = Cursors::START;
        while let Some(part) = segments.next_segment() {
            walk = self.take_part(bodies, staged, &part, walk, budget);
        }
        walk.made
    }
}
