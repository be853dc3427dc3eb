// Entry of an allele into a register's image (document 01, "Entry"): the tests of image and allele, and the
// number that its normal form gets by `form_entry`. A blank image is made in `blank`, and the other calls
// are in `register`.
//
// specs/Calls.antt has what an entry promises.
#![tactic(auto)]

mod allele;

pub use allele::entry;
