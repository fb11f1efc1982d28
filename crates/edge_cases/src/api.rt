// The use cases of the containment domain API of 2012 (source document 001; 000 is the same text), under its headings. The values are those of
// its tables and of the comments in its programs; a domain that a table calls DISCARDED is not live here, and the tables do not count steps.
//
// Document 01 rules where it differs: a cell stays read-write over an advance, so that nothing is added again after it, and an advance is made
// of the innermost domain, whether it is the root or not.
use crate::acts::Act::*;
use crate::acts::Kind::*;
use crate::acts::Label::*;
use crate::acts::{Act, Cells, EDGE, Shape};
use crate::play::Player;
use std::fmt;

const CASES: &[Act] = &[
    Text(
        "200 The use cases of the containment domain API of 2012. Cells 0, 1 and 2 are x, y and z; a cell that a case does not use is filled with 5",
    ),
    // "One CD used to recover from a transient CPU failure". The text gives no values: 10, 20 and 30 are good data, 99 and 98 bad.
    Text(
        "201 One domain recovers a loop. x is the data and starts as 10, y is the flag \"done\" and starts as 0. Domain 1 copies both read-write:",
    ),
    Fresh(Shape {
        bytes: [10, 0, 5, 5],
        ..EDGE
    }),
    Create,
    Add(0, Cells(0, 2), Copied, ReadWrite),
    State,
    Text("202 Compute leaves 99 and an error, restore:"),
    Write(0, 99),
    Restore(1),
    State,
    Text("203 Compute again gives 20, advance:"),
    Write(0, 20),
    Advance(1),
    State,
    Text("204 With no add in between, compute leaves 98 and an error, restore:"),
    Write(0, 98),
    Restore(1),
    State,
    Text("205 Compute again gives 30 and sets the flag, commit:"),
    Write(0, 30),
    Write(1, 1),
    Commit(1),
    State,
    // "CDs representing static points in time" says that an advance is made of a root only.
    Text(
        "206 An advance is made of the innermost domain, and not of the root. 1 holds 0, 2 holds 0, write 1:",
    ),
    Fresh(Shape {
        bytes: [0, 5, 5, 5],
        ..EDGE
    }),
    Create,
    Add(0, Cells(0, 1), Copied, ReadWrite),
    Create,
    Add(0, Cells(0, 1), Copied, ReadWrite),
    Write(0, 1),
    Advance(1),
    Advance(2),
    State,
    // "STATIC 1: Child CD stores changed data which is not used during a commit/restore": "X's Value under different circumstances at time T4".
    Text("207 STATIC 1 up to time T4, with x = 2 then. The root is 1, A is 2 and B is 3:"),
    Fresh(Shape {
        bytes: [0, 5, 5, 5],
        ..EDGE
    }),
    Create,
    Create,
    Add(0, Cells(0, 1), Copied, ReadWrite),
    Write(0, 1),
    Create,
    Add(0, Cells(0, 1), Copied, ReadWrite),
    Write(0, 2),
    Keep,
    State,
    Text("208 At T4, restore B:"),
    Back,
    Restore(3),
    State,
    Text("209 At T4, restore A:"),
    Back,
    Restore(2),
    State,
    Text("210 At T4, commit B, then A, then the root:"),
    Back,
    Commit(3),
    State,
    Commit(2),
    State,
    Commit(1),
    State,
    // "STATIC 2: Child CD stores new, unchanged data which is used during a commit/restore". The branch that adds z was taken.
    Text("211 STATIC 2 up to time T4, where z was added too. The root is 1, A is 2 and B is 3:"),
    Fresh(Shape {
        bytes: [0, 0, 0, 5],
        ..EDGE
    }),
    Create,
    Create,
    Add(0, Cells(0, 1), Copied, ReadWrite),
    Write(0, 1),
    Create,
    Add(0, Cells(0, 2), Copied, ReadWrite),
    Add(0, Cells(2, 1), Copied, ReadWrite),
    Write(0, 2),
    Write(1, 1),
    Write(2, 1),
    Keep,
    State,
    Text("208 At T4, restore B:"),
    Back,
    Restore(3),
    State,
    Text("209 At T4, restore A:"),
    Back,
    Restore(2),
    State,
    Text("210 At T4, commit B, then A, then the root:"),
    Back,
    Commit(3),
    State,
    Commit(2),
    State,
    Commit(1),
    State,
    // "Committing CDs".
    Text("212 Committing, up to time T4, and then B, A and the root are committed:"),
    Fresh(Shape {
        bytes: [0, 0, 5, 5],
        ..EDGE
    }),
    Create,
    Create,
    Add(0, Cells(0, 1), Copied, ReadWrite),
    Write(0, 1),
    Create,
    Add(0, Cells(0, 2), Copied, ReadWrite),
    Write(0, 2),
    Write(1, 1),
    State,
    Commit(3),
    State,
    Commit(2),
    State,
    Commit(1),
    State,
    // "Delete_from_cd": calculator adds its y to its caller's domain and deletes it before it returns.
    Text(
        "213 The calculator deletes before it returns. Main has x = 0, the calculator y = 0; domain 1 copies x, the calculator adds y:",
    ),
    Fresh(Shape {
        bytes: [0, 0, 5, 5],
        ..EDGE
    }),
    Create,
    Add(0, Cells(0, 1), Copied, ReadWrite),
    Add(0, Cells(1, 1), Copied, ReadWrite),
    State,
    Text("214 y rises to 1, an error, restore:"),
    Write(1, 1),
    Restore(1),
    State,
    Text("215 y rises to 1, no error, delete y:"),
    Write(1, 1),
    Delete(1, Cells(1, 1)),
    State,
    Text("216 The calculator returned; x rises to 1, an error, restore:"),
    Write(0, 1),
    Restore(1),
    State,
    Text("217 x rises to 1, no error, commit:"),
    Write(0, 1),
    Commit(1),
    State,
];

pub fn show(player: &mut Player) -> fmt::Result {
    player.play(CASES)
}
