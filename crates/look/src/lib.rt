// Look: the 64 bytes that restore would leave in a cell, shown as a part of the lent bodies or of the lent memory, or told as a rule's number.
// It changes nothing.
#![tactic(auto)]

ghost use Rattle.std.specs.Prelude.{◌≡◌, ◌≤◌, length, IfOk};
ghost use Rattle.words.specs.Layout.{cells_of};
ghost use Rattle.table.specs.Marks.{Reached};
ghost use Rattle.search.specs.Search.{HasSource};
ghost use Rattle.search.specs.Domain.{depth_named};
ghost use Rattle.store.specs.Answer.{number_in};
ghost use Rattle.store.specs.Checks.{lent};
ghost use Rattle.store.specs.Lent.{SoundOf};
ghost use Rattle.store.specs.Outcome.{buffers};
ghost use Rattle.look.specs.Look.{look_check, place_in, look_place, placed_at, placed, place_part, PlaceWithin, shown_at, answer_report, answer_rule, look_means};

use search::holders::{Value, find_value};
use search::notes::Notes;
use store::answers::Refusal;
use store::questions::{live_check, range_check, reached_check};
use table::lent::Sound;
use table::reach_of;
use words::layout::{CELL_SIZE, cell_at, cells_of};

// Where the 64 bytes stand: at this offset of the lent memory, or of the lent bodies; or the rule that they follow, which has none.
#[derive(Clone, Copy, PartialEq, Eq, Debug)]
pub enum Place {
    Memory(usize),
    Bodies(usize),
    Rule(u32),
}

// What look answers: bytes to show, or a rule to tell.
#[derive(Clone, Copy, PartialEq, Eq, Debug)]
pub enum LookAnswer {
    Bytes,
    Rule(u32),
}

// The questions put to look. `top` is how many entries there are to pass. The call goes on with the table, and with the depth of the domain named.
#[tactic(auto, using(store::proofs::Refused::asking), unfolding(crate::specs::Look::look_check))]
fn look_check<'a>(
    memory: usize,
    bodies: usize,
    table: &'a [u32],
    top: usize,
    handle: u32,
    cell: u32,
) -> Result<(Sound<'a>, u32), Refusal>
    requires { Reached table.now top }
    ensures no { number_in result ≡ look_check (lent memory bodies table.now) handle cell }
    ensures passed { IfOk result (λ p. SoundOf table.now top p.0 × (p.1 ≡ depth_named table.now handle)) }
{
    let sound = reached_check(memory, bodies, table, top)?;
    let depth = live_check(table, handle)?;
    range_check(cells_of(memory), cell as usize, 1)?;
    Ok((sound, depth))
}

// The place of a cell's bytes in a table that passed the questions: one search, for which notes would take longer to make.
#[tactic(auto, unfolding(crate::specs::Look::place_in))]
fn find_place(table: &Sound<'_>, depth: u32, cell: u32) -> Place
    requires depth { 1 ≤ depth }
    requires source { HasSource table.now.entries.slots table.now.entries.words.now depth cell }
    ensures { placed_at result ≡ place_in table.now.entries.slots table.now.entries.words.now depth cell }
{
    match find_value(table, depth, cell, Notes::<1>::none().lent()) {
        None => Place::Memory(cell_at(cell as usize)),
        Some(held) => match held.value {
            Value::Body(body) => Place::Bodies(cell_at(body as usize)),
            Value::Rule(rule) => Place::Rule(rule),
        },
    }
}

// Where restore would take the bytes of this cell from: 64 bytes that lie inside the buffer named, or a rule.
pub fn look_place(
    memory: &[u8],
    bodies: &[u8],
    table: &[u32],
    handle: u32,
    cell: u32,
) -> Result<Place, Refusal>
    ensures found { placed result ≡ look_place handle cell (buffers memory.now bodies.now table.now) }
    ensures means { shown_at (placed result) (buffers memory.now bodies.now table.now)
        ≡ look_means handle cell (buffers memory.now bodies.now table.now) }
    ensures within { PlaceWithin (placed result) (buffers memory.now bodies.now table.now) }
{
    // asked once, for the questions and for the search
    let top = reach_of(table);
    let (sound, depth) = look_check(memory.len(), bodies.len(), table, top, handle, cell)?;
    Ok(find_place(&sound, depth, cell))
}

// Look's answer.
pub fn look_answer(
    memory: &[u8],
    bodies: &[u8],
    table: &[u32],
    handle: u32,
    cell: u32,
) -> Result<LookAnswer, Refusal>
    ensures report { answer_report result ≡ (look_means handle cell (buffers memory.now bodies.now table.now)).report }
    ensures rule { answer_rule result ≡ (look_means handle cell (buffers memory.now bodies.now table.now)).rule }
{
    match look_place(memory, bodies, table, handle, cell)? {
        Place::Memory(_) | Place::Bodies(_) => Ok(LookAnswer::Bytes),
        Place::Rule(rule) => Ok(LookAnswer::Rule(rule)),
    }
}

// The 64 bytes that restore of this handle would leave in this cell: a part of the lent bodies, or of the lent memory where nobody from that
// domain inwards holds the cell; of length 0 where look is refused, and where the bytes follow a rule.
pub fn look<'a>(
    memory: &'a [u8],
    bodies: &'a [u8],
    table: &[u32],
    handle: u32,
    cell: u32,
) -> &'a [u8]
    ensures part { result.now ≡ place_part (look_place handle cell (buffers memory.now bodies.now table.now))
        (buffers memory.now bodies.now table.now) }
    ensures means { result.now ≡ (look_means handle cell (buffers memory.now bodies.now table.now)).part }
{
    match look_place(memory, bodies, table, handle, cell) {
        Ok(Place::Memory(at)) => &memory[at..at + CELL_SIZE],
        Ok(Place::Bodies(at)) => &bodies[at..at + CELL_SIZE],
        Ok(Place::Rule(_)) | Err(_) => &memory[..0],
    }
}
