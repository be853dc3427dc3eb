// The location text and the allele text, written. Crate `text_reader` reads them back.
//
// specs/Layout.antt has the two texts.
#![tactic(auto)]

mod layout;

pub use layout::{
    AFTER_DIGEST, AFTER_SEQUENCE, ALLELE_WORDS, BEFORE_DIGEST, BEFORE_END, BEFORE_LOCATION,
    BEFORE_SEQUENCE, BEFORE_START, LOCATION_WORDS, write_allele, write_location,
};
