// The entries whose label rises, behind the new ones.
ghost use Rattle.std.specs.Prelude.{◌≡◌, true, not, ◌||◌, ℕ, ◌+◌, ◌≤◌, ◌<◌, eqb};
ghost use Rattle.words.specs.Layout.{max_cells, group_at};
ghost use Rattle.words.specs.Scan.{all};
ghost use Rattle.ranges.specs.Ranges.{label_for};
ghost use Rattle.table.specs.Entry.{live, word1, word2};
ghost use Rattle.add.specs.Add.{rises, raise_change};
ghost use Rattle.add.specs.Walking.{lacks, Restages, Lifts};
ghost use Rattle.add.specs.Took.{words_lent, slots_lent, ranges_lent};

use crate::checks::is_lacking;
use crate::taking::Taking;
use changes::staged::Staged;
use ranges::Range;
use ranges::list::is_writable;
use table::fields::{cell_of, depth_of, raise, writable_of};
use words::layout::LIVE_AT;

// Does the label of an entry with this first word rise: of the innermost domain, read-only, and named by a read-write range?
fn is_raised(word: u32, depth: u32, list: &[Range]) -> bool
    ensures { result ≡ rises depth list.now word }
{
    if depth_of(word) != depth {
        return false;
    }
    if writable_of(word) != 0 {
        return false;
    }
    is_writable(list, cell_of(word))
}

impl<'a, 't> Taking<'a, 't> {
    // Is the range read-only, or none of its cells held?
    fn is_still(&self, depth: u32, range: &Range) -> bool
        requires { (depth ≡ live (words_lent self.now)) × (range.now.first + range.now.count ≤ max_cells) }
        ensures { result ≡ (not (eqb range.now.label 1) || all range.now.count (λ j. lacks self.now.held.now depth (range.now.first + j))) }
    {
        if !range.is_writable() {
            return true;
        }
        for j in 0..range.count as usize {
            if !is_lacking(self.held, depth, range.first as usize + j) {
                return false;
            }
        }
        true
    }

    // Is no cell held of any read-write range? Then no label rises. A no costs time alone, so nothing is promised of it.
    fn none_rises(&self, depth: u32) -> bool
        requires { depth ≡ live (words_lent self.now) }
        ensures { result ≡ true → (c : ℕ) → label_for (ranges_lent self.now) c ≡ 1 → lacks self.now.held.now depth c ≡ true }
    {
        for range in self.list.ranges {
            if !self.is_still(depth, range) {
                return false;
            }
        }
        true
    }

    // An entry in use becomes read-write where its label rises.
    fn raise_entry<const WORDS: usize, const BITS: usize>(
        &self,
        staged: &mut Staged<WORDS, BITS>,
        i: usize,
        depth: u32,
    )
        requires { (i < slots_lent self.now) × (i < group_at BITS) }
        ensures { Restages i (raise_change depth (ranges_lent self.now) (word1 (slots_lent self.now) (words_lent self.now) i)
            (word2 (slots_lent self.now) (words_lent self.now) i)) staged.old.words staged.old.changed staged.new.words staged.new.changed }
    {
        let word = self.entries.first_word(i);
        if !is_raised(word, depth, self.list.ranges) {
            return;
        }
        let raised = raise(word);
        let body = self.entries.second_word(i);
        staged.stage_entry(i, raised, body);
    }

    // Stages the entries whose label rises. A free entry's does not.
    pub fn raise_entries<const WORDS: usize, const BITS: usize>(
        &self,
        staged: &mut Staged<WORDS, BITS>,
    )
        requires { self.now.entries.top ≤ group_at BITS }
        ensures { Lifts (slots_lent self.now) (words_lent self.now) (ranges_lent self.now) staged.old.words staged.old.changed
            staged.new.words staged.new.changed }
    {
        let depth = self.entries.words[LIVE_AT];
        if self.none_rises(depth) {
            return;
        }
        for i in 0..self.entries.top {
            self.raise_entry(staged, i, depth);
        }
    }
}
