// An allele on a reference, as it is given.
use printer::Shown;
use std::fmt;

// Document 01's reference.
pub const WORKED: &[u8] = b"TCAGCAGCAGT";

// A protein that ends in a stop.
pub const PROTEIN: &[u8] = b"MKTAYIAKQR*";

// The reference, the start and the end of the interval, and the replacement.
#[derive(Clone, Copy)]
pub struct Allele(pub &'static [u8], pub u64, pub u64, pub &'static [u8]);

impl fmt::Display for Allele {
    fn fmt<W: fmt::Write>(&self, f: &mut fmt::Formatter<W>) -> fmt::Result {
        let Allele(reference, start, end, replacement) = *self;
        let reference = Shown(reference);
        let replacement = Shown(replacement);
        write!(f, "{reference} {start} {end} {replacement}")
    }
}
