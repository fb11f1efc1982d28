// Values compared with memory: has memory in a cell other bytes than a domain holds of it? Advance asks it of every read-write entry of the innermost
// domain.
#![tactic(auto)]

pub mod compared;
