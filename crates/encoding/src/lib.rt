// Unicode's table of well-formed byte sequences, which a source is held against.
#![tactic(auto)]

pub mod utf8;
