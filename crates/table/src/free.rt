// Runs of free entries, which no pass need look at: those behind the last entry in use, and those between others.
ghost use Rattle.std.specs.Prelude.{◌≡◌, true, ◌+◌, ◌<◌, ◌≤◌, MatchOption, MatchResult, length};
ghost use Rattle.words.specs.Layout.{slots_of, max_slots};
ghost use Rattle.table.specs.Marks.{FreeRun, Reaches};

use crate::lent::Entries;
use words::layout::{MAX_SLOTS, PENDING_AT, slots_of};

// So many entries are asked at once between others, and so many in a long run and in the room to spare behind the last one in use.
const RUN: usize = 4;

const LONG_RUN: usize = 16;

// A run of fewer free entries is short, and asked by fours alone: sixteens would cost it more than they save.
const SHORT: usize = 64;

impl<'a> Entries<'a> {
    // Are the entries from i on, so many of them, free? All are asked, with no branch, so that the compiler can ask many words at once.
    fn are_free<const MANY: usize>(&self, i: usize) -> bool
        requires { i + MANY ≤ self.now.slots }
        ensures { result ≡ true → FreeRun self.now.slots self.now.words.now i (i + MANY) }
    {
        let mut free = true;
        for k in 0..MANY {
            free = free & ((self.first_word(i + k) == 0) & (self.second_word(i + k) == 0));
        }
        free
    }

    // Passes over free entries from `from` on and before the top, so many at a time and so often at most: Ok is how far all are free, Err is where the
    // first so many stand that are not. How often is asked last, so that short runs are not slower for it.
    fn past_free<const MANY: usize>(&self, from: usize, most: usize) -> Result<usize, usize>
        requires { (0 < MANY) × (from ≤ self.now.top) }
        ensures { MatchResult result
            (λ end. (from ≤ end) × (end ≤ self.now.top) × FreeRun self.now.slots self.now.words.now from end)
            (λ at. (from ≤ at) × (at < self.now.top) × FreeRun self.now.slots self.now.words.now from at) }
    {
        let runs = (self.top - from) / MANY;
        for k in 0..runs {
            let at = from + MANY * k;
            if !self.are_free::<MANY>(at) {
                return Err(at);
            }
            if k + 1 == most {
                return Ok(at + MANY);
            }
        }
        Ok(from + MANY * runs)
    }

    // The entry to pass next, from `from` on, in a long run of free ones: they are passed over by sixteens and then by fours. It is taken into no other
    // function: there it would take registers from the pass over entries in use.
    #[inline(never)]
    fn past_long(&self, from: usize) -> Option<usize>
        requires { from ≤ self.now.top }
        ensures { MatchOption result (FreeRun self.now.slots self.now.words.now from self.now.top)
            (λ i. (from ≤ i) × (i < self.now.top) × FreeRun self.now.slots self.now.words.now from i) }
    {
        let (Ok(far) | Err(far)) = self.past_free::<LONG_RUN>(from, MAX_SLOTS);
        let (Ok(next) | Err(next)) = self.past_free::<RUN>(far, MAX_SLOTS);
        if next == self.top { None } else { Some(next) }
    }

    // The entry to pass next, from `from` on and before the top: that one where it is in use, which is asked first, since entries in use mostly
    // stand side by side.
    pub fn next_entry(&self, from: usize) -> Option<usize>
        requires { from ≤ self.now.top }
        ensures { MatchOption result (FreeRun self.now.slots self.now.words.now from self.now.top)
            (λ i. (from ≤ i) × (i < self.now.top) × FreeRun self.now.slots self.now.words.now from i) }
    {
        if from == self.top {
            return None;
        }
        if self.first_word(from) != 0 {
            return Some(from);
        }
        match self.past_free::<RUN>(from, SHORT / RUN) {
            Ok(near) => self.past_long(near),
            Err(at) => Some(at),
        }
    }

    // The same entries with a lower top, from which on all are free: so many are asked at once, so that it may be too high by one less.
    fn without_free<const MANY: usize>(self) -> Self
        requires { 0 < MANY }
        ensures words { result.words.now ≡ self.entry.words.now }
        ensures slots { result.slots ≡ self.entry.slots }
    {
        let rest = self.top % MANY;
        for k in (0..self.top / MANY).rev() {
            let at = rest + MANY * k;
            if !self.are_free::<MANY>(at) {
                return Entries {
                    words: self.words,
                    slots: self.slots,
                    top: at + MANY,
                };
            }
        }
        Entries {
            words: self.words,
            slots: self.slots,
            top: rest,
        }
    }

    // The entries of a table that question 4 passes: those up to the last in use; all of them where pairs are pending, which may fill others. None
    // where the number of its slots is not allowed. Entries are taken from the front and most tables have room to spare: that is passed over by
    // sixteens, and then four are asked at once, so that the top may be three too high.
    pub fn reached(words: &'a [u32]) -> Option<Self>
        ensures { MatchOption result (1 ≤ slots_of (length words.now) → slots_of (length words.now) ≤ max_slots → ⊥)
            (λ table. (table.words.now ≡ words.now) × (table.slots ≡ slots_of (length words.now)) × Reaches table.slots words.now table.top) }
    {
        let slots = slots_of(words.len());
        if !(1..=MAX_SLOTS).contains(&slots) {
            return None;
        }
        let all = Entries {
            words,
            slots,
            top: slots,
        };
        if words[PENDING_AT] != 0 {
            return Some(all);
        }
        Some(all.without_free::<LONG_RUN>().without_free::<RUN>())
    }
}
