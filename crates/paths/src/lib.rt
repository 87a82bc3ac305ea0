// Paths with their generics, attributes and modifiers: format.rs 64 to 156 and 281 to 319.
#![tactic(auto)]

pub mod attribute;
pub mod modifier;
pub mod path;
