// The entries of a table that is lent to be read: what each function that walks over them asks of the words stands in these two types.
ghost use Rattle.std.specs.Prelude.{◌≡◌, ◌≤◌, ◌<◌, length};
ghost use Rattle.words.specs.Layout.{pairs_at, max_slots, max_live};
ghost use Rattle.table.specs.Entry.{live, word1, word2};
ghost use Rattle.table.specs.Marks.{EndsAt, CellsOnce};

use words::layout::{first_at, second_at};

// The words of a table, how many entry slots it has, and a number of entries behind which all are free: a pass ends there.
#[derive(Clone, Copy)]
pub struct Entries<'a> {
    pub words: &'a [u32],
    pub slots: usize,
    pub top: usize,
    ghost few: { slots ≤ max_slots },
    ghost long: { pairs_at slots ≤ length words.now },
    ghost ends: { EndsAt slots words.now top },
}

impl<'a> Entries<'a> {
    // The first word of entry i: its depth, its label, its kind and its cell.
    pub fn first_word(&self, i: usize) -> u32
        requires { i < self.now.slots }
        ensures { result ≡ word1 self.now.slots self.now.words.now i }
    {
        self.words[first_at(self.slots, i)]
    }

    // The second word of entry i: its body, or its rule.
    pub fn second_word(&self, i: usize) -> u32
        requires { i < self.now.slots }
        ensures { result ≡ word2 self.now.slots self.now.words.now i }
    {
        self.words[second_at(self.slots, i)]
    }
}

// The entries of a table in which no depth has a cell twice and no more domains are live than there may be, which is so of every table that
// question 4 lets pass.
#[derive(Clone, Copy)]
pub struct Sound<'a> {
    pub entries: Entries<'a>,
    ghost once: { CellsOnce entries.slots entries.words.now entries.slots },
    ghost domains: { live entries.words.now ≤ max_live },
}
