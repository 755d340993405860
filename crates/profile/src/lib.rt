// A profile: pegs and fixed levels as its edits and books left them.
#![tactic(auto)]

pub mod profile;
