// The text and the identifier of an allele in its normal form (document 01, "Texts and identifiers").
// Those of a location are in crate `location_identifier`, below it.
//
// specs/Identifier.antt has the text and the identifier, specs/Calls.antt what the calls promise.
#![tactic(auto)]

mod allele;
mod hash;

pub use allele::{allele_identifier, allele_text};

// What an allele's identifier answers: the count of bytes written, and how far the normal form moved.
#[derive(Clone, Copy)]
pub struct Identified {
    pub length: u64,
    pub moved: moved::Moved,
}
