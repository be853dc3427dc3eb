// The text and the identifier of a location, and the digest that stands for it in an allele text
// (document 01, "Texts and identifiers"). Crate `allele_identifier` stands on it.
//
// specs/Identifier.antt has the identifier, specs/Calls.antt what the calls promise.
#![tactic(auto)]

mod hash;
mod location;

pub use hash::location_digest;
pub use location::{location_identifier, location_text};
