// A profile's pegs and fixed levels as a book of bytes: reading one, and writing one.
#![tactic(auto)]

mod cursor;
mod entry;
pub mod fault;
mod held;
pub mod number;
pub mod reading;
pub mod writing;
