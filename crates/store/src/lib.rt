// The calls of the domain store, over three lent buffers: memory, bodies and table.
//
// Every call may be given any buffers and any numbers. It puts document 01's questions first, in one function that only reads, and
// refuses with the number of the first no. A changing call takes a budget of steps; it makes as many of its stores as the budget
// allows, and whether it was done or stopped is decided once, at the end.
#![tactic(auto)]

pub mod answers;
pub mod questions;
