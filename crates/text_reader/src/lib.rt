// The location text and the allele text read back (document 01, "Texts and identifiers"), each as a
// chain of the words of `words`. That what a call has written is read back is proved above, in
// `location_identifier` and `allele_identifier`.
//
// specs/Accepted.antt has the texts that are accepted and what reading them answers.
#![tactic(auto)]

mod allele;
mod location;
mod part;

pub use allele::{location_of, read_allele, sequence_of};
pub use location::{digest_of, read_location};

// What a location text says: start, end, and where its sequence digest begins, as a place, which C reads.
#[derive(Clone, Copy)]
pub struct LocationParts {
    pub start: u64,
    pub end: u64,
    pub digest: u64,
}

// Where the parts of an allele text lie, as places, which C reads: the location's digest, and the sequence.
#[derive(Clone, Copy)]
pub struct AlleleParts {
    pub location: u64,
    pub sequence: u64,
    pub length: u64,
}
