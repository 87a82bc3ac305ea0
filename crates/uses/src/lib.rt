// Uses, their paths and groups.
#![tactic(auto)]

pub mod item_use;
pub mod use_parts;
