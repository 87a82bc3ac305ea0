// What stands in expressions and statements and leads to no expression.
#![tactic(auto)]

pub mod args;
pub mod heads;
pub mod labels;
pub mod leads;
pub mod links;
pub mod lone;
pub mod sorts;
pub mod spaced;
