// What is staged of the entries: which of them get which two new words. No budget and no place in the journal is known here.
ghost use Rattle.std.specs.Prelude.{◌≡◌, true, ℕ, ◌+◌, ◌*◌, ◌≤◌, ◌<◌, Option, length};
ghost use Rattle.words.specs.Layout.{max_slots, group_size, group_at};
ghost use Rattle.table.specs.Changes.{Change, put};
ghost use Rattle.changes.specs.Staged.{with_bit, with_words, change_of, Tells, Restaged, Stages};

use words::layout::GROUP_SIZE;

// Room for changes of the first 256 entries, and of those of any table: two words for each entry, and a number of bits for 64 of them.
pub const FEW_WORDS: usize = 512;

pub const FEW_BITS: usize = 4;

pub const MANY_WORDS: usize = 8192;

pub const MANY_BITS: usize = 64;

// A word of bits with bit j set too, if it is to be. It takes no branch.
pub fn with_bit(bits: u64, j: usize, changed: bool) -> u64
    requires { j < group_size }
    ensures { result ≡ with_bit changed j bits }
{
    if changed {
        return bits | (1u64 << j);
    }
    bits
}

// Stages two new words for entry i, but not its bit.
pub fn stage_words(words: &mut [u32], i: usize, first: u32, second: u32)
    requires { 2 * i + 1 < length words.old }
    ensures { words.new ≡ with_words (put first second) i words.old }
{
    words[2 * i] = first;
    words[2 * i + 1] = second;
}

// Stages two new words for entry i, in place of what was staged for it before.
pub fn stage_entry(words: &mut [u32], changed: &mut [u64], i: usize, first: u32, second: u32)
    requires { (2 * i + 1 < length words.old) × (i < group_at (length changed.old)) }
    ensures { Restaged words.old changed.old i (put first second) words.new changed.new }
{
    stage_words(words, i, first, second);
    changed[i / GROUP_SIZE] |= 1 << (i % GROUP_SIZE);
}

// What is staged of entries, lent to be read, whatever room there is: two words for each bit.
#[derive(Clone, Copy)]
pub struct Lent<'a> {
    pub words: &'a [u32],
    pub changed: &'a [u64],
    ghost room: { 2 * group_at (length changed.now) ≤ length words.now },
}

// The new words of entry i stand at 2i and 2i + 1 of the words, and bit i says that they are there.
#[derive(Drop)]
pub struct Staged<const WORDS: usize, const BITS: usize> {
    pub words: [u32; WORDS],
    pub changed: [u64; BITS],
    ghost long: { length words ≡ WORDS },
    ghost wide: { length changed ≡ BITS },
    ghost room: { 2 * group_at BITS ≤ WORDS },
    ghost few: { WORDS ≤ 2 * max_slots },
}

impl<const WORDS: usize, const BITS: usize> Staged<WORDS, BITS> {
    // Nothing is staged yet.
    pub fn none() -> Self
        requires { (2 * group_at BITS ≤ WORDS) × (WORDS ≤ 2 * max_slots) }
        ensures { (f : ℕ → Change) → Stages 0 f result.words result.changed }
    {
        Staged {
            words: [0u32; WORDS],
            changed: [0u64; BITS],
        }
    }

    // The words and the bits, lent to the writer.
    pub fn lent(&self) -> Lent<'_>
        ensures { (result.words.now ≡ self.now.words) × (result.changed.now ≡ self.now.changed) }
    {
        Lent {
            words: &self.words,
            changed: &self.changed,
        }
    }

    // Stages two new words for entry i, in place of what was staged for it before.
    pub fn stage_entry(&mut self, i: usize, first: u32, second: u32)
        requires { i < group_at BITS }
        ensures { Restaged self.old.words self.old.changed i (put first second) self.new.words self.new.changed }
    {
        stage_entry(&mut self.words, &mut self.changed, i, first, second);
    }

    // Stages what `change` says of the entries of group k below `end`. Their bits are gathered in a number that is stored once: each bit set in memory
    // would wait for the one before it.
    fn stage_group<C: Fn(usize) -> Option<(u32, u32)>>(&mut self, k: usize, end: usize, change: &C)
        requires room { (group_at k < end) × (end ≤ group_at k + group_size) × (end ≤ group_at BITS) }
        requires callable { (i : ℕ) → i < end → C.pre change.now i }
        ensures { (f : ℕ → Change) → ((i : ℕ) → i < end → (r : Option (ℕ × ℕ)) → C.post change.now i r → change_of r ≡ f i)
            → Stages (group_at k) f self.old.words self.old.changed → Stages end f self.new.words self.new.changed }
    {
        let mut bits: u64 = 0;
        for i in GROUP_SIZE * k..end {
            if let Some((first, second)) = change(i) {
                stage_words(&mut self.words, i, first, second);
                bits |= 1 << (i % GROUP_SIZE);
            }
        }
        self.changed[k] = bits;
    }

    // Stages what `change` says of each entry below `top`: its two new words, or nothing where it stays. A group of 64 is left out where `all_stay` says
    // that all its entries stay: that may ask all of them with no branch, so that the compiler can ask many at once.
    pub fn stage_below<S: Fn(usize, usize) -> bool, C: Fn(usize) -> Option<(u32, u32)>>(
        &mut self,
        top: usize,
        all_stay: S,
        change: C,
    )
        requires room { top ≤ group_at BITS }
        requires asked { (a b : ℕ) → a ≤ b → b ≤ top → S.pre all_stay a b }
        requires callable { (i : ℕ) → i < top → C.pre change i }
        ensures { (f : ℕ → Change) (e : ℕ) → top ≤ e → Tells top e (λ i r. C.post change i r) (λ a b. S.post all_stay a b true) f
            → Stages 0 f self.old.words self.old.changed → Stages e f self.new.words self.new.changed }
    {
        for k in 0..top.div_ceil(GROUP_SIZE) {
            let end = top.min(GROUP_SIZE * k + GROUP_SIZE);
            if !all_stay(GROUP_SIZE * k, end) {
                self.stage_group(k, end, &change);
            }
        }
    }
}
