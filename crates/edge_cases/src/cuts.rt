// Calls that are stopped at every budget, and what is found afterwards: the sequencer's accident, a card that drops out inside an advance; restores;
// openings; makes; and every other call. A channel's cell has 16 scales, each a 32-bit float: 1 is 0.0.128.63 and 2 is 0.0.0.64. A scale of zero would
// make the caller divide zero by zero.
use crate::acts::Act::*;
use crate::acts::Kind::*;
use crate::acts::Label::*;
use crate::acts::{Act, Cells, EDGE, ONES, SEVENS, Shape, TWOS};
use crate::play::Player;
use std::fmt;

// E = B = 2.
const TWO: Shape = Shape {
    entries: 2,
    bodies: 2,
    ..SEVENS
};

const CUTS: &[Act] = &[
    Text(
        "300 A channel's scales, and a card that drops out inside an advance. Cycle 1 keeps 16 scales of 1, tile 2 relies on it, channel 3 keeps a copy of its own and sets them to 2:",
    ),
    Fresh(Shape {
        bytes: [0, 5, 5, 5],
        ..EDGE
    }),
    Repeat(0, ONES),
    Create,
    Add(0, Cells(0, 1), Copied, ReadWrite),
    Create,
    Add(0, Cells(0, 1), ViaParent, ReadWrite),
    Create,
    Add(0, Cells(0, 1), Copied, ReadWrite),
    Repeat(0, TWOS),
    Keep,
    Advance(3),
    Whole,
    Text(
        "301 The advance with each budget from 0 to 73; then an opening, a cell of zeros, restore 3, a cell of zeros again, and restore 1:",
    ),
    Sweep(
        73,
        &[
            Advance(3),
            Open,
            Same,
            Write(0, 0),
            Restore(3),
            State,
            Write(0, 0),
            Restore(1),
            State,
        ],
    ),
    Text("310 A restore of two cells that ends a domain: 128 bytes, and 1 + 1 + 4 words by pairs:"),
    Fresh(EDGE),
    Create,
    Add(0, Cells(0, 1), Copied, ReadWrite),
    Write(0, 9),
    Create,
    Add(0, Cells(0, 2), Copied, ReadWrite),
    Write(0, 11),
    Write(1, 12),
    Write(2, 13),
    Keep,
    State,
    Restore(1),
    State,
    Whole,
    Text("311 With each budget from 0 to 149, and then an opening:"),
    Sweep(149, &[Restore(1), PutBack(128), State, Open, Same]),
    Text("312 Stopped after 100 steps, an opening, and restore 1 again:"),
    Back,
    Cut(100),
    Restore(1),
    Open,
    Restore(1),
    State,
    Text("313 Stopped after 145 steps, an opening, and restore 1 again:"),
    Back,
    Cut(145),
    Restore(1),
    Open,
    Restore(1),
    State,
    Text(
        "314 Stopped after 141 steps, then an opening with each budget from 0 to 8, and a whole opening:",
    ),
    Sweep(8, &[Cut(141), Restore(1), CutBySweep, Open, Open, Same]),
    Text("315 The same, stopped after 147 steps:"),
    Sweep(8, &[Cut(147), Restore(1), CutBySweep, Open, Open, Same]),
    Text(
        "316 A make over this store with each budget from 0 to 34; then nine calls, a whole make, and a create:",
    ),
    Sweep(34, &[Make, Probe, Make, Create]),
    Text(
        "317 A make over a store with one domain and E = B = 1, with each budget from 0 to 20, and then an opening:",
    ),
    Fresh(Shape {
        entries: 1,
        bodies: 1,
        ..SEVENS
    }),
    Create,
    Keep,
    Make,
    Whole,
    Sweep(20, &[Make, Open, List, Same]),
    Text("320 A create with each budget from 0 to 12, and then an opening:"),
    Fresh(EDGE),
    Keep,
    Create,
    Whole,
    Sweep(12, &[Create, Open, Same, State]),
    Text(
        "321 A create stopped after 8 steps, an opening with each budget from 0 to 5, and a whole opening:",
    ),
    Sweep(5, &[Cut(8), Create, CutBySweep, Open, Open, Same]),
    Text(
        "322 With E = B = 2: add cell 0 by copy, where cell 1 is held, with each budget from 0 to 73, and then an opening:",
    ),
    Fresh(TWO),
    Create,
    Add(0, Cells(1, 1), Copied, ReadOnly),
    Keep,
    Add(0, Cells(0, 1), Copied, ReadWrite),
    Whole,
    Sweep(
        73,
        &[Add(0, Cells(0, 1), Copied, ReadWrite), Open, Same, State],
    ),
    Text("323 Add cell 0 via parent, with each budget from 0 to 9:"),
    Fresh(TWO),
    Create,
    Add(0, Cells(0, 1), Copied, ReadOnly),
    Create,
    Keep,
    Add(0, Cells(0, 1), ViaParent, ReadWrite),
    Whole,
    Sweep(
        9,
        &[Add(0, Cells(0, 1), ViaParent, ReadWrite), Open, Same, State],
    ),
    Text("324 Delete one cell of two, with each budget from 0 to 9:"),
    Fresh(TWO),
    Create,
    Add(0, Cells(0, 2), Copied, ReadWrite),
    Keep,
    Delete(0, Cells(0, 1)),
    Whole,
    Sweep(9, &[Delete(0, Cells(0, 1)), Open, Same, State]),
    Text("325 Commit a domain, of which one cell moves, with each budget from 0 to 15:"),
    Fresh(TWO),
    Create,
    Create,
    Add(0, Cells(0, 1), Copied, ReadWrite),
    Keep,
    Commit(0),
    Whole,
    Sweep(15, &[Commit(0), Open, Same, State]),
    Text(
        "326 Advance over one read-write cell, copied as 7 and now 9, with each budget from 0 to 73:",
    ),
    Fresh(TWO),
    Create,
    Add(0, Cells(0, 1), Copied, ReadWrite),
    Write(0, 9),
    Keep,
    Advance(0),
    Whole,
    Sweep(73, &[Advance(0), Open, Same, State]),
];

pub fn show(player: &mut Player) -> fmt::Result {
    player.play(CUTS)
}
