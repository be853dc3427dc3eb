// How a digest is written down: sha512t24u, its first 24 bytes as 32 characters, and an identifier, a
// prefix before them. Crates `sequence_identifier`, `location_identifier` and `allele_identifier` write
// their identifiers by it.
//
// specs/Base64.antt has the characters, specs/Digest.antt the digest.
#![tactic(auto)]

mod base64;
mod identifier;

pub use base64::{group_of, write_digest_text};
pub use identifier::place_identifier;
