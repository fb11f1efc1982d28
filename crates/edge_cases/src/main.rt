// Plays document 01's edges, the use cases of the containment domain API of 2012, the sequencer's accident, refusals, calls stopped at every
// budget, cells that follow a pattern, advances that copy only what changed, several ranges in one add, and inner advances that keep the outer point,
// and prints what they give. A section has a table of acts with their text; `acts` says what an act is, and `play` performs it.
//
// Each number of steps and each refusal is a call's answer. Memory is read byte by byte; what a domain holds is read from the table and the bodies.
#![tactic(auto)]

mod acts;
mod advances;
mod api;
mod buffers;
mod calls;
mod cuts;
mod edges;
mod holdings;
mod labels;
mod lists;
mod outer;
mod play;
mod refusals;
mod rules;
mod several;
mod told;

use play::Player;
use std::fmt;

fn show(player: &mut Player) -> fmt::Result {
    edges::show(player)?;
    api::show(player)?;
    cuts::show(player)?;
    labels::show(player)?;
    refusals::show(player)?;
    rules::show(player)?;
    advances::show(player)?;
    several::show(player)?;
    outer::show(player)
}

// stays: `main` has no result, since std tells one by way of the C library's errno, which would be an axiom more. What does not fit a line ends the
// program there, and `stdout` shows it.
fn main() {
    let mut player = Player::new();
    let _ = show(&mut player);
}
