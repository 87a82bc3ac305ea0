// What the programs share that speak to an operator: files that arguments name, lines and columns, refusals in words.
#![tactic(auto)]

pub mod files;
pub mod place;
pub mod refusal;
