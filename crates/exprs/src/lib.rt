// Expressions, statements, blocks, and the items that hold blocks: the functions of `Lay` call each other in a cycle, in which the depth
// that is left in the tree falls.
#![tactic(auto)]

mod arms;
mod block;
mod chain;
mod control;
mod expr;
mod items;
mod list;
mod object;
mod operand;

// The cycle's functions are methods with no self, so that proofs name them by their own names, in whichever file they stand. A name is the
// Rust's without its prefix, with `_` behind it where the word is a keyword. None has a type parameter, which no cycle may have: what hands a
// kind on takes its byte.
#[derive(Clone, Copy)]
pub struct Lay;
