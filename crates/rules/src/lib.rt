// What a run lays out: a node by the rule that its kind names, or a whole script.
#![tactic(auto)]

pub mod node;
pub mod whole;
