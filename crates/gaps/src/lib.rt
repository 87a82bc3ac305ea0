// What stands between statements, entries and arms, and around them: lines, semicolons, commas, ends.
#![tactic(auto)]

pub mod arms;
pub mod blocks;
pub mod lines;
pub mod statements;
