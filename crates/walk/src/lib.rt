// The walk over a node's records: the stream, and steps that take a record of it.
#![tactic(auto)]

pub mod stream;
pub mod tokens;
