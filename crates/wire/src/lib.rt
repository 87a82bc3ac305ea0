// The engine's state as C lends it: words of four bytes.
#![tactic(auto)]

pub mod state_bytes;
pub mod word;
