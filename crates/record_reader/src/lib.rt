// What an image holds, read without changing a byte: whether it is well formed, and what stands under a number
// (document 01, "The register image"). Crates `entry` and `register` stand on it.
//
// specs/Calls.antt has the grounds and what the calls answer, and proofs/Told.antt what an accepted reading tells.
#![tactic(auto)]

mod checking;
mod reading;

pub use checking::check;
use image::Status;
pub use reading::{check_number, read_record};

// What stands under a number: its normal interval, its status, and where its replacement lies in the image.
#[derive(Clone, Copy)]
pub struct Record {
    pub start: u64,
    pub end: u64,
    pub status: Status,
    pub offset: u64,
    pub length: u64,
}
