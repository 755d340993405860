// Pegs and fixed levels in numbered slots, and the edits that write them.
#![tactic(auto)]

pub mod edit;
pub mod peg;
pub mod slot;
pub mod tables;
