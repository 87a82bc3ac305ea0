// How wide a text is: how many of its characters are outside White_Space, and where each of them stands.
#![tactic(auto)]

pub mod count;
pub mod place;
