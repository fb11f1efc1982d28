// The questions that several calls are put. Each answers nothing where the answer is yes, and the refusal of the first no.
ghost use Rattle.std.specs.Prelude.{◌≡◌, true, ◌+◌, ◌<◌, ◌≤◌, min, length, IfOk, OnOk};
ghost use Rattle.words.specs.Layout.{cells_of, slots_of, max_live, handle_at};
ghost use Rattle.words.specs.Journal.{pending};
ghost use Rattle.table.specs.Entry.{live};
ghost use Rattle.marks.specs.Blocks.{block_at, max_groups, groups_for};
ghost use Rattle.table.specs.Marks.{Reached, RoomForMarks, AllMarked};
ghost use Rattle.search.specs.Domain.{depth_named};
ghost use Rattle.model.specs.Answer.{ask, ended};
ghost use Rattle.model.specs.Holdings.{ask_range};
ghost use Rattle.store.specs.Answer.{question, number_in, report};
ghost use Rattle.store.specs.Checks.{shape_check, idle_check, table_check, open_check, store_check, ask_live_in, ask_innermost_in, lent};
ghost use Rattle.store.specs.Lent.{Passes, SoundOf};

use crate::answers::{Answer, Ended, Refusal};
use marks::{FEW_BLOCKS, FEW_BYTES, MANY_BYTES, SOME_BLOCKS, SOME_BYTES, blocks_wanted};
use search::domains::find_domain;
use table::lent::{Entries, Sound};
use table::{header_ok, idle_ok, lengths_ok, reach_of, table_ok};
use words::layout::{LIVE_AT, MAX_BODIES, PENDING_AT, bodies_of, cells_of, slots_of};

// One question: nothing where the answer is yes, and else this refusal.
pub fn asked(yes: bool, why: Refusal) -> Result<(), Refusal>
    ensures no { number_in result ≡ ask yes (question why) 0 }
    ensures yes { OnOk result (yes ≡ true) }
{
    if yes { Ok(()) } else { Err(why) }
}

// ---- questions 1 to 4

// Questions 1 and 2.
#[tactic(auto, using(crate::proofs::Refused::asking, table::proofs::Checks::lengths_facts), unfolding(crate::specs::Checks::shape_check))]
fn shape_check(memory: usize, bodies: usize, table: &[u32]) -> Result<(), Refusal>
    ensures { number_in result ≡ shape_check (lent memory bodies table.now) }
{
    asked(lengths_ok(memory, bodies, table.len()), Refusal::Lengths)?;
    asked(header_ok(memory, bodies, table), Refusal::NoStore)
}

// Questions 1 to 3.
#[tactic(auto, using(crate::proofs::Refused::asking, crate::proofs::Checks::shape_facts), unfolding(crate::specs::Checks::idle_check))]
fn idle_check(memory: usize, bodies: usize, table: &[u32]) -> Result<(), Refusal>
    ensures { number_in result ≡ idle_check (lent memory bodies table.now) }
{
    shape_check(memory, bodies, table)?;
    asked(table[PENDING_AT] == 0, Refusal::Pending)
}

// Question 4, with room for marks. Where no pairs are pending, the marks of the table's entries are left there. It is taken into no other function: where
// a caller's answer is made in a place that is handed in, that place takes a register from the pass over the entries.
#[inline(never)]
#[tactic(auto, using(crate::proofs::Checks::shape_facts), unfolding(crate::specs::Checks::table_check))]
fn table_marked(
    memory: usize,
    bodies: usize,
    table: &[u32],
    top: usize,
    seen: &mut [u8],
    used: &mut [u8],
) -> Result<(), Refusal>
    requires passed { shape_check (lent memory bodies table.now) ≡ 0 }
    requires room { RoomForMarks table.now (cells_of memory) top seen.old used.old }
    ensures no { number_in result ≡ table_check (lent memory bodies table.now) }
    ensures marks { OnOk result (pending table.now ≡ 0 → AllMarked (slots_of (length table.now)) table.now seen.new used.new) }
{
    let cells = cells_of(memory);
    let slots = slots_of(table.len());
    let places = bodies_of(bodies);
    if table[PENDING_AT] == 0 {
        let right = idle_ok(table, cells, slots, top, places, seen, used);
        asked(right, Refusal::Corrupt)
    } else {
        let right = table_ok(table, cells, slots, top, places, seen, used);
        asked(right, Refusal::Corrupt)
    }
}

// The same with marks of its own. They come first, in a function that is taken into no other, so that its large frame is made where it begins: behind
// a question, the compiler made it over a register in use.
#[inline(never)]
fn table_with<const BYTES: usize>(
    memory: usize,
    bodies: usize,
    table: &[u32],
    top: usize,
) -> Result<(), Refusal>
    requires passed { shape_check (lent memory bodies table.now) ≡ 0 }
    requires reached { Reached table.now top }
    requires room { (BYTES ≤ block_at (max_groups + 1)) × (block_at (min top (groups_for (cells_of memory)) + 1) ≤ BYTES) }
    ensures { number_in result ≡ table_check (lent memory bodies table.now) }
{
    let mut seen = [0u8; BYTES];
    let mut used = [0u8; MAX_BODIES];
    table_marked(memory, bodies, table, top, &mut seen, &mut used)
}

// Question 4, with marks by how many entries there are to pass.
fn table_check(memory: usize, bodies: usize, table: &[u32], top: usize) -> Result<(), Refusal>
    requires passed { shape_check (lent memory bodies table.now) ≡ 0 }
    requires reached { Reached table.now top }
    ensures { number_in result ≡ table_check (lent memory bodies table.now) }
{
    let blocks = blocks_wanted(top, cells_of(memory));
    if blocks <= FEW_BLOCKS {
        table_with::<FEW_BYTES>(memory, bodies, table, top)
    } else if blocks <= SOME_BLOCKS {
        table_with::<SOME_BYTES>(memory, bodies, table, top)
    } else {
        table_with::<MANY_BYTES>(memory, bodies, table, top)
    }
}

// The questions put to open.
#[tactic(auto, using(crate::proofs::Refused::asking), unfolding(crate::specs::Checks::open_check))]
pub fn open_check(memory: usize, bodies: usize, table: &[u32]) -> Result<(), Refusal>
    ensures { number_in result ≡ open_check (lent memory bodies table.now) }
{
    shape_check(memory, bodies, table)?;
    table_check(memory, bodies, table, reach_of(table))
}

// The questions put to every call but make and open, of a call that needs no marks. `top` is how many entries there are to pass. The call goes on with
// the table.
#[tactic(auto, using(crate::proofs::Refused::asking, crate::proofs::Checks::idle_facts, crate::proofs::Checks::store_parts))]
pub fn reached_check<'a>(
    memory: usize,
    bodies: usize,
    table: &'a [u32],
    top: usize,
) -> Result<Sound<'a>, Refusal>
    requires { Reached table.now top }
    ensures no { number_in result ≡ store_check (lent memory bodies table.now) }
    ensures sound { IfOk result (SoundOf table.now top) }
{
    idle_check(memory, bodies, table)?;
    table_check(memory, bodies, table, top)?;
    Ok(sound_of(table, top))
}

// The same of a call that searches for nothing.
#[tactic(auto, using(crate::proofs::Refused::asking))]
pub fn plain_check(memory: usize, bodies: usize, table: &[u32]) -> Result<(), Refusal>
    ensures { number_in result ≡ store_check (lent memory bodies table.now) }
{
    reached_check(memory, bodies, table, reach_of(table))?;
    Ok(())
}

// The same with room for marks. What is lent has, once no question refuses the call, the marks of the table's entries: the call goes on with these and
// makes none of its own.
#[tactic(auto, using(crate::proofs::Refused::asking, crate::proofs::Checks::idle_facts, crate::proofs::Checks::store_parts))]
pub fn store_check<'a>(
    memory: usize,
    bodies: usize,
    table: &'a [u32],
    top: usize,
    seen: &mut [u8],
    used: &mut [u8],
) -> Result<Sound<'a>, Refusal>
    requires { RoomForMarks table.now (cells_of memory) top seen.old used.old }
    ensures no { number_in result ≡ store_check (lent memory bodies table.now) }
    ensures sound { IfOk result (SoundOf table.now top) }
    ensures marks { OnOk result (AllMarked (slots_of (length table.now)) table.now seen.new used.new) }
{
    idle_check(memory, bodies, table)?;
    table_marked(memory, bodies, table, top, seen, used)?;
    Ok(sound_of(table, top))
}

// A table that questions 1 to 4 let pass, to search in.
pub fn sound_of<'a>(table: &'a [u32], top: usize) -> Sound<'a>
    requires passes { Passes table.now }
    requires reached { Reached table.now top }
    ensures { SoundOf table.now top result }
{
    let slots = slots_of(table.len());
    Sound {
        entries: Entries {
            words: table,
            slots,
            top,
        },
    }
}

// ---- the questions behind these

// Question 5, in a table that passed those before: the depth of the domain that the handle names.
#[tactic(auto, using(search::proofs::Domain::depth_small))]
pub fn live_check(table: &[u32], handle: u32) -> Result<u32, Refusal>
    requires { (handle_at max_live ≤ length table.now) × (live table.now ≤ max_live) }
    ensures no { number_in result ≡ ask_live_in table.now handle 0 }
    ensures depth { IfOk result (λ d. (d ≡ depth_named table.now handle) × (1 ≤ d) × (d ≤ live table.now)) }
{
    match find_domain(table, handle) {
        None => Err(Refusal::NoSuchDomain),
        Some(depth) => Ok(depth),
    }
}

// Questions 5 and 6, in a table that passed those before.
pub fn innermost_check(table: &[u32], handle: u32) -> Result<(), Refusal>
    requires { (handle_at max_live ≤ length table.now) × (live table.now ≤ max_live) }
    ensures no { number_in result ≡ ask_innermost_in table.now handle 0 }
    ensures inner { OnOk result ((depth_named table.now handle ≡ live table.now) × (1 ≤ live table.now)) }
{
    let depth = live_check(table, handle)?;
    asked(depth == table[LIVE_AT], Refusal::NotInnermost)
}

// Question 8: at least one cell, and all of them in memory. No sum is made, since it could wrap.
pub fn range_check(cells: usize, first: usize, count: usize) -> Result<(), Refusal>
    ensures no { number_in result ≡ ask_range cells first count 0 }
    ensures within { OnOk result ((1 ≤ count) × (first + count ≤ cells)) }
{
    let within = 1 <= count && count <= cells && first <= cells - count;
    asked(within, Refusal::Range)
}

// ---- the answer

// What a call answers that no question refused and that needs so many steps.
#[tactic(auto, unfolding(model::specs::Answer::ended))]
pub fn answer_of(need: usize, handle: u32, budget: usize) -> Answer
    ensures { report result ≡ ended need handle budget }
{
    if need <= budget {
        Ok(Ended::Done {
            steps: need,
            handle,
        })
    } else {
        Ok(Ended::Stopped(budget))
    }
}
