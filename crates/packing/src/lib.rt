// An answer as one number, as C gets it: the refusal's number above its place.
#![tactic(auto)]

pub mod numbers;
