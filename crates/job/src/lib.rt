// The job language: a line is read as a call, the call is made, and its answer is told in one line.
#![tactic(auto)]

mod reading;
pub mod reply;
pub mod runner;
mod words;
