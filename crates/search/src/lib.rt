// What a table means: which entry is found for a depth and a cell, the first holder from a domain inwards, the copy or the rule behind a via
// parent chain; and which entry slots and bodies are free.
#![tactic(auto)]

pub mod domains;
pub mod entries;
pub mod holders;
pub mod key;
pub mod notes;
pub mod places;
pub mod writable;
