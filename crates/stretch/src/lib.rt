// What is said of lent lists once: what a buffer holds after a write, how far two stretches agree,
// and the code that writes, compares and reads stretches. Most crates stand on this one.
#![tactic(auto)]

mod big_endian;
mod compare;
mod ends;
mod readings;
mod write;

pub use big_endian::read_word;
pub use compare::{agreed, common_prefix, common_suffix, equal};
pub use ends::{Back, End, Front};
pub use readings::{AsGiven, Reading};
pub use write::{copy, copy_at, put, put_three, put_three_read};

// Three stretches that lie apart and are one text.
#[derive(Clone, Copy)]
pub struct Three<'a> {
    pub first: &'a [u8],
    pub middle: &'a [u8],
    pub last: &'a [u8],
}
