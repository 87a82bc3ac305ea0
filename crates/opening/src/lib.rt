// Opening: the check of a tree level by level, and what is found of a source and its tree.
#![tactic(auto)]

pub mod levels;
pub mod open;
