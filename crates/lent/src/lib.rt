// What is lent of the engine: its scalars, the ring of waiting comments, room in the buffer, and the texts that calls write.
#![tactic(auto)]

pub mod formatter;
pub mod ring;
pub mod room;
pub mod wording;
