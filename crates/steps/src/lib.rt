// What rules are made of besides: tokens that may remain, and lists with their commas.
#![tactic(auto)]

pub mod items;
pub mod remaining;
