// The road rules: grades, turns, lengths, and the codes that judge them.
#![tactic(auto)]

pub mod clause;
pub mod code;
pub mod grade;
pub mod irc;
pub mod length;
pub mod point;
pub mod refusal;
pub mod road;
pub mod shortest;
pub mod speeds;
pub mod stricter;
pub mod table;
pub mod turn;
