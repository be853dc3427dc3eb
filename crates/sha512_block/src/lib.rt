// The compression function of SHA-512 (FIPS 180-4): what each block of 128 bytes makes of a hash value.
// Crates `sha512_padding` and `sha512` stand on it. specs/ has the standard's words, constants and rounds.
#![tactic(auto)]

mod block;
mod constants;
mod words;

pub use block::absorb;
pub use constants::initial_hash;

// The bytes of a block.
pub const BLOCK_SIZE: usize = 128;

// A hash value of eight words; also a round's eight working variables. Fields and no array: the standard
// and the definitions of specs/ go by these letters, and an index is no plainer.
#[repr(C)]
#[derive(Clone, Copy)]
pub struct Hash {
    pub a: u64,
    pub b: u64,
    pub c: u64,
    pub d: u64,
    pub e: u64,
    pub f: u64,
    pub g: u64,
    pub h: u64,
}
