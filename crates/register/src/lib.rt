// Withdrawal, undo and seal, on a lent image (document 01, "The register image"). A blank image is made in
// `blank`, and entry is in `entry`.
//
// specs/Calls.antt has what the calls promise.
#![tactic(auto)]

mod undoing;
mod withdrawal;

pub use undoing::{seal, undo};
pub use withdrawal::withdraw;
