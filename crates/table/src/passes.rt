// Question 4: the table's rule, for a table of any contents.
//
// It passes over the entries once, with one mark for each cell, a bit for each depth that holds it, and one for each body, so that it does not
// compare each entry with each; it passes over them again only to ask via parent entries for their parent. Entries that follow a rule are marked
// after that, in a pass of their own, since via parent never rests on one. The caller lends the room for marks and has the marks afterwards.
// While pairs are pending it looks at a copy in which they are in place.
ghost use Rattle.std.specs.Prelude.{◌≡◌, true, false, not, ℕ, ◌+◌, ◌<◌, ◌≤◌, length, get_or, MatchOption};
ghost use Rattle.words.specs.Layout.{pairs_at, table_words, max_bodies, max_cells, max_live, handle_at, group_of};
ghost use Rattle.words.specs.Scan.{all};
ghost use Rattle.words.specs.Journal.{effective, pending};
ghost use Rattle.table.specs.Entry.{live, via_of, pattern_of, depth_of, cell_of, is_pattern, parent};
ghost use Rattle.table.specs.Rule.{handle_ok, head_ok, kind_ok, pairs_ok, rule_ok, table_ok};
ghost use Rattle.marks.specs.Blocks.{cells_in, Kept, Spare, Room};
ghost use Rattle.table.specs.Marks.{has, mark_at, mark_entry, Marked, CellsOnce, ViasMarkable, ViaInner, parent_told, all_told, placed, mark_body, body_fits};
ghost use Rattle.table.specs.Marks.{BlankRoom, NoVias, Passed, PassedAll, RulesMarked, AllMarked};

use crate::fields::{below_kind, cell_of, depth_of, is_pattern, is_via};
use crate::journal::{pairs_ok, put_pairs};
use crate::lent::{Entries, Sound};
use marks::{mark_cell, mark_of};
use patterns::MAX_RULE;
use words::layout::{
    LIVE_AT, MAX_CELLS, MAX_FRONT, MAX_LIVE, NEXT_AT, PENDING_AT, handle_at, pairs_at,
};
use words::wide;

// ---- the head

// Is the word of handle k right: above the handle before it and below the next handle, or 0 where no domain is live?
fn handle_ok(table: &[u32], k: usize) -> bool
    requires { (handle_at max_live ≤ length table.now) × (k < max_live) }
    ensures { result ≡ handle_ok table.now k }
{
    let handle = table[handle_at(k)];
    if wide(table[LIVE_AT]) <= k {
        return handle == 0;
    }
    let given = handle < table[NEXT_AT];
    if k == 0 {
        return (0 < handle) & given;
    }
    (table[handle_at(k - 1)] < handle) & given
}

// Are words 4, 5 and 8 to 15 right?
pub fn head_ok(table: &[u32]) -> bool
    requires { handle_at max_live ≤ length table.now }
    ensures { result ≡ head_ok table.now }
{
    (table[LIVE_AT] <= MAX_LIVE)
        & ((1 <= table[NEXT_AT]) & (0..MAX_LIVE as usize).all(|k| handle_ok(table, k)))
}

// ---- an entry by itself

// Is an entry in use, with this first word, of a live depth and of a cell of memory? Below the kind, a word that names one of the cells has no
// other bit.
fn place_ok(word: u32, live: u32, cells: u32) -> bool
    requires { cells ≤ max_cells }
    ensures { result ≡ placed cells live word }
{
    let depth = depth_of(word);
    (1 <= depth) & ((depth <= live) & (below_kind(word) < cells))
}

// ---- entries beside each other: the cells

// Does a mark have the depth outside this one: is the bit below its own set?
fn has_parent(mark: u8, depth: u32) -> bool
    requires { depth < 16 }
    ensures { 1 ≤ depth → result ≡ has (parent depth) mark }
{
    ((4 * mark as u32) >> depth) % 2 == 1
}

// Is an entry not via parent, or has its parent marked its cell?
fn parent_marked(seen: &[u8], word: u32) -> bool
    requires { (via_of word ≡ 0 → ⊥) → (cell_of word < cells_in seen.now) × (2 ≤ depth_of word) }
    ensures { result ≡ parent_told word seen.now }
{
    if !is_via(word) {
        return true;
    }
    has_parent(mark_of(seen, cell_of(word)), depth_of(word))
}

// Do the marks tell of every via parent entry that its parent has its cell? All are asked, also past a no: there is one branch less to guess.
fn parents_told(table: &Entries<'_>, seen: &[u8]) -> bool
    requires { ViasMarkable table.now.slots table.now.words.now (cells_in seen.now) × ViaInner table.now.slots table.now.words.now }
    ensures { result ≡ all_told table.now.slots table.now.words.now seen.now }
{
    let mut told = true;
    for i in 0..table.top {
        told = told & parent_marked(seen, table.first_word(i));
    }
    told
}

// The same where so many entries are via parent: with none there is nothing to ask.
fn parents_ok(table: &Entries<'_>, vias: usize, seen: &[u8]) -> bool
    requires { ViasMarkable table.now.slots table.now.words.now (cells_in seen.now) × ViaInner table.now.slots table.now.words.now
        × NoVias table.now.slots table.now.words.now table.now.slots vias }
    ensures { result ≡ all_told table.now.slots table.now.words.now seen.now }
{
    if vias == 0 {
        return true;
    }
    parents_told(table, seen)
}

// Marks the cell of an entry. False where the entry's depth has the cell already.
fn mark_entry(seen: &mut [u8], word: u32) -> bool
    requires { (depth_of word ≤ max_live) × Kept seen.old × Spare seen.old (group_of (cell_of word)) }
    ensures { (result ≡ not (has (depth_of word) (mark_at seen.old word))) × (result ≡ true → seen.new ≡ mark_entry word seen.old) }
{
    mark_cell(seen, depth_of(word), cell_of(word))
}

// ---- entries beside each other: the bodies

// Is the second word right of an entry that follows a rule, which is none via parent: the number of a rule?
fn rule_right(word: u32, second: u32) -> bool
    requires { is_pattern word ≡ true }
    ensures { (b : ℕ) → result ≡ kind_ok b word second }
{
    if is_via(word) {
        return false;
    }
    second <= MAX_RULE
}

// Is the second word of an entry in use that follows no rule right for its kind: 0 for via parent, which is never outermost, and for a copy a
// body that no other has? Marks the body.
fn mark_body(used: &mut [u8], word: u32, second: u32, bodies: u32) -> bool
    requires { (word ≡ 0 → ⊥) × (pattern_of word ≡ 0) × (bodies ≤ length used.old) }
    ensures right { result ≡ true → (kind_ok bodies word second ≡ true) × (body_fits word second used.old ≡ true)
        × (used.new ≡ mark_body word second used.old) }
    ensures wrong { result ≡ false → kind_ok bodies word second ≡ true → body_fits word second used.old ≡ false }
{
    if is_via(word) {
        return (second == 0) & (2 <= depth_of(word));
    }
    if bodies <= second {
        return false;
    }
    let body = wide(second);
    let before = used[body];
    used[body] = 1;
    before != 1
}

// ---- the pass over the entries

// stays: `seen` and `used` are two parameters wherever both are lent. A struct of the two references is no plainer: the contract of each function
// that is lent it would have to promise that it still holds the same two.

// Is entry i right, by itself and beside those in front of it? Marks its cell and, of a copy, its body; an entry that follows a rule is not
// marked yet.
fn pass_entry(
    table: &Entries<'_>,
    cells: u32,
    bodies: u32,
    i: usize,
    seen: &mut [u8],
    used: &mut [u8],
) -> bool
    requires sizes { (i < table.now.slots) × (live table.now.words.now ≤ max_live)
        × (cells ≤ max_cells) × Room (i + 1) cells seen.old × (bodies ≤ length used.old) }
    requires passed { Passed cells table.now.slots bodies table.now.words.now i seen.old used.old }
    ensures right { result ≡ true → Passed cells table.now.slots bodies table.now.words.now (i + 1) seen.new used.new }
    ensures wrong { result ≡ false → rule_ok cells table.now.slots bodies table.now.words.now ≡ false }
{
    let word = table.first_word(i);
    let second = table.second_word(i);
    if word == 0 {
        return second == 0;
    }
    if !place_ok(word, table.words[LIVE_AT], cells) {
        return false;
    }
    if is_pattern(word) {
        return rule_right(word, second);
    }
    if !mark_entry(seen, word) {
        return false;
    }
    mark_body(used, word, second, bodies)
}

// What the pass over the entries counted: how many are via parent, and how many follow a rule.
#[derive(Clone, Copy, PartialEq, Eq, Debug)]
pub struct Pass {
    pub vias: usize,
    pub rules: usize,
}

// Passes over all entries in use, up to the first that is not right, by itself or beside others, and marks their cells and bodies.
fn pass_entries(
    table: &Entries<'_>,
    cells: u32,
    bodies: u32,
    seen: &mut [u8],
    used: &mut [u8],
) -> Option<Pass>
    requires { (live table.now.words.now ≤ max_live) × (cells ≤ max_cells) × BlankRoom table.now.top cells bodies seen.old used.old }
    ensures { MatchOption result (rule_ok cells table.now.slots bodies table.now.words.now ≡ false)
        (λ pass. PassedAll cells table.now.slots bodies table.now.words.now table.now.top pass.vias pass.rules seen.new used.new) }
{
    let mut vias = 0;
    let mut rules = 0;
    let mut from = 0;
    while let Some(i) = table.next_entry(from) {
        if !pass_entry(table, cells, bodies, i, seen, used) {
            return None;
        }
        let word = table.first_word(i);
        vias += usize::from(is_via(word));
        rules += usize::from(is_pattern(word));
        from = i + 1;
    }
    Some(Pass { vias, rules })
}

// ---- the entries that follow a rule, marked last

// One entry: it is marked if it follows a rule. False where its depth has its cell already.
fn mark_rule(table: &Entries<'_>, i: usize, seen: &mut [u8]) -> bool
    requires sizes { i < table.now.top }
    requires rules_marked { RulesMarked table.now.slots table.now.words.now table.now.top i seen.old }
    ensures right { result ≡ true → RulesMarked table.now.slots table.now.words.now table.now.top (i + 1) seen.new }
    ensures wrong { result ≡ false → CellsOnce table.now.slots table.now.words.now table.now.slots → ⊥ }
{
    let word = table.first_word(i);
    if !is_pattern(word) {
        return true;
    }
    mark_entry(seen, word)
}

// All of them.
fn mark_rules(table: &Entries<'_>, seen: &mut [u8]) -> bool
    requires { RulesMarked table.now.slots table.now.words.now table.now.top 0 seen.old }
    ensures right { result ≡ true → CellsOnce table.now.slots table.now.words.now table.now.slots
        × Marked table.now.slots table.now.words.now table.now.slots seen.new × Kept seen.new }
    ensures wrong { result ≡ false → CellsOnce table.now.slots table.now.words.now table.now.slots → ⊥ }
{
    for i in 0..table.top {
        if !mark_rule(table, i, seen) {
            return false;
        }
    }
    true
}

// ---- the rule of a table with no pending pairs

// Are words 4, 5, 8 to 15 and the entries right? The marks that tell it are left in `seen`, of cells, and `used`, of bodies, for the caller to go on with.
fn rule_ok(
    table: &Entries<'_>,
    cells: usize,
    bodies: usize,
    seen: &mut [u8],
    used: &mut [u8],
) -> bool
    requires { (bodies ≤ max_bodies) × BlankRoom table.now.top cells bodies seen.old used.old }
    ensures value { result ≡ rule_ok cells table.now.slots bodies table.now.words.now }
    ensures marks { result ≡ true → AllMarked table.now.slots table.now.words.now seen.new used.new }
{
    if !head_ok(table.words) {
        return false;
    }
    // More cells than an entry can name count as so many.
    let named = cells.min(MAX_CELLS) as u32;
    let Some(pass) = pass_entries(table, named, bodies as u32, seen, used) else {
        return false;
    };
    if !parents_ok(table, pass.vias, seen) {
        return false;
    }
    if pass.rules == 0 {
        return true;
    }
    mark_rules(table, seen)
}

// Question 4 of a table with no pending pairs, which is its own meaning: no copy is made, and the marks are its own.
pub fn idle_ok(
    table: &Entries<'_>,
    cells: usize,
    bodies: usize,
    seen: &mut [u8],
    used: &mut [u8],
) -> bool
    requires idle { pending table.now.words.now ≡ 0 }
    requires marks { (bodies ≤ max_bodies) × BlankRoom table.now.top cells bodies seen.old used.old }
    ensures value { result ≡ table_ok cells table.now.slots bodies table.now.words.now }
    ensures marks { result ≡ true → AllMarked table.now.slots table.now.words.now seen.new used.new }
{
    rule_ok(table, cells, bodies, seen, used)
}

// ---- pending pairs

// Copies the words in front of the pairs, one by one: the library's method for it would have the archive ask for one function more of C's.
fn copy_words(words: &[u32], count: usize, copy: &mut [u32])
    requires { (count ≤ length words.now) × (count ≤ length copy.old) }
    ensures { (k : ℕ) → k < count → get_or copy.new k 0 ≡ get_or words.now k 0 }
{
    for i in 0..count {
        copy[i] = words[i];
    }
}

// The rule of the table that pending pairs mean: of a copy in which they are in place, with room for so many words.
// It is taken into no other function, so that the frame with room for the copy is made where it begins.
#[inline(never)]
fn pending_ok<const FRONT: usize>(
    table: &Entries<'_>,
    cells: usize,
    bodies: usize,
    seen: &mut [u8],
    used: &mut [u8],
) -> bool
    requires front { (pairs_at table.now.slots ≤ FRONT) × (FRONT < 100000) }
    requires pairs { (length table.now.words.now ≡ table_words table.now.slots) × (pairs_ok table.now.slots table.now.words.now ≡ true) }
    requires marks { (bodies ≤ max_bodies) × BlankRoom table.now.slots cells bodies seen.old used.old }
    ensures { result ≡ rule_ok cells table.now.slots bodies (effective (pairs_at table.now.slots) table.now.words.now) }
{
    let slots = table.slots;
    let first = pairs_at(slots);
    let mut copy = [0u32; FRONT];
    copy_words(table.words, first, &mut copy);
    put_pairs(table.words, first, wide(table.words[PENDING_AT]), &mut copy);
    let meant = Entries {
        words: &copy,
        slots,
        top: slots,
    };
    rule_ok(&meant, cells, bodies, seen, used)
}

// Question 4: is the table right, pending pairs included? Where some are, its top is the number of its slots: the pairs may fill any.
pub fn table_ok(
    table: &Entries<'_>,
    cells: usize,
    bodies: usize,
    seen: &mut [u8],
    used: &mut [u8],
) -> bool
    requires pairs { (length table.now.words.now ≡ table_words table.now.slots) × ((pending table.now.words.now ≡ 0 → ⊥) → table.now.top ≡ table.now.slots) }
    requires marks { (bodies ≤ max_bodies) × BlankRoom table.now.top cells bodies seen.old used.old }
    ensures { result ≡ table_ok cells table.now.slots bodies table.now.words.now }
{
    if !pairs_ok(table.words, table.slots) {
        return false;
    }
    if table.words[PENDING_AT] == 0 {
        return idle_ok(table, cells, bodies, seen, used);
    }
    pending_ok::<MAX_FRONT>(table, cells, bodies, seen, used)
}

impl<'a> Sound<'a> {
    // A table that question 4 let pass, with no pairs pending.
    pub fn of(entries: &Entries<'a>) -> Self
        requires passed { (m b : ℕ) × (table_ok m entries.now.slots b entries.now.words.now ≡ true) }
        requires idle { pending entries.now.words.now ≡ 0 }
        ensures { result.entries ≡ entries.now }
    {
        Sound { entries: *entries }
    }
}
