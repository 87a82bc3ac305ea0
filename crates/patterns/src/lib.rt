// Patterns and the arguments of functions.
#![tactic(auto)]

pub mod fn_args;
pub mod pat;
pub mod pat_parts;
