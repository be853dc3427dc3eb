// The alphabets of document 01: letters, residues and the first foreign byte of a stretch; base64url and
// the check of a digest text. Every crate that has such a test stands on this one.
#![tactic(auto)]

mod base64;
mod class;
mod residues;

pub use base64::{Base64url, DIGEST_LENGTH, check_digest_text, first_outside_base64url};
pub use class::{Class, all_of, first_outside};
pub use residues::{Letter, Residue, first_foreign, is_letter};
