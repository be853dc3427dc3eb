// The end of a SHA-512 message (FIPS 180-4): the padding after its last bytes, and a hash value as the
// 64 bytes of a digest. Crate `sha512` stands on it. specs/Padding.antt has the standard's sentences.
#![tactic(auto)]

mod last_block;

pub use last_block::{hash_bytes, pad};
