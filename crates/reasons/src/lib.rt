// Why a list went over several lines: the reason that the layout rules go by, asked of a source, a tree and a node alone, and the answer
// as one number, as C gets it.
#![tactic(auto)]

pub mod numbers;
pub mod why;
