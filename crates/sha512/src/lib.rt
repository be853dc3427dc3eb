// SHA-512 (FIPS 180-4) of a message that comes whole or in parts, over the padding of its end and the
// compression of its blocks. Crates `digest_text`, `sequence_identifier`, `location_identifier` and
// `allele_identifier` stand on it. specs/ has the standard's digest and the running state; proofs/Join.antt
// the law that parts fed one after another and finished give the digest of their join.
#![tactic(auto)]

mod last_block;
mod parts;

pub use last_block::{finish, of_message};
pub use parts::{begin, feed};
use sha512_block::BLOCK_SIZE;

// A digest under way: the hash value after the whole blocks, the bytes that wait for the next block
// (the first total % 128 of it, then zeros), and the count of all bytes, modulo 2 to the 64th.
#[repr(C)]
#[derive(Clone, Copy)]
pub struct Running {
    pub hash: sha512_block::Hash,
    pub block: [u8; BLOCK_SIZE],
    pub total: u64,
}
