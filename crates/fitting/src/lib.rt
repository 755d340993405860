// Alignments ready for fitting: exact levels, the rules that curve lengths meet, and the least lengths that meet them.
#![tactic(auto)]

pub mod alignment;
pub mod examine;
pub mod fit;
pub mod fitted;
mod grade_line;
mod judge;
mod level;
mod passed;
pub mod ready;
mod rows;
mod rules_met;
mod walk;
