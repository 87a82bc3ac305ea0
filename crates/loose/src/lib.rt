// Loose or compact: the width question, the reason why a list goes loose, and where a chain breaks. All of it is asked of the source and
// the tree alone.
#![tactic(auto)]

pub mod chain;
pub mod reason;
mod wide;
