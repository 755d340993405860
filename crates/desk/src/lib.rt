// What a job has made so far: calls on it, and their answers, as values.
#![tactic(auto)]

pub mod answer;
pub mod call;
pub mod desk;
