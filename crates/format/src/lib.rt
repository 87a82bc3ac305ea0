// Runs: on a node or on a whole script, with their checks and their end.
#![tactic(auto)]

pub mod ended;
pub mod runs;
