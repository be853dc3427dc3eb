// A blank register image (document 01, "The register image"). What is done with it then is in `entry`
// and `register`.
//
// specs/Calls.antt has what the call promises.
#![tactic(auto)]

mod header;

pub use header::blank;

// How much an image has room for: records, journal entries, and bytes of the pool.
#[derive(Clone, Copy)]
pub struct Capacities {
    pub records: u64,
    pub journal: u64,
    pub pool: u64,
}
