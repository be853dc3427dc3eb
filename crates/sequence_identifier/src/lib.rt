// Sequence digests: the identifier of a whole reference, and the running digest of one that comes in parts.
//
// specs/Identifier.antt has the identifier, specs/Calls.antt what the calls promise.
#![tactic(auto)]

mod identifier;
mod running;

pub use identifier::sequence_identifier;
pub use running::{begin, feed, finish};
