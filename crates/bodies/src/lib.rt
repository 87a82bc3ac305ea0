// Structs and enums: format.rs 1305 to 1439.
#![tactic(auto)]

pub mod body;
pub mod fields;
pub mod lines;
