// A register of a protein that ends in a stop. What is used of its pool begins with a stop and ends with a gap; at the
// end stands what its numbers are read as, and a check of the image each time one of these two bytes is changed.
use crate::calls::{Call, Setting};

const FIRST_USED: usize = 132;

const LAST_USED: usize = 134;

pub const SETTING: Setting = Setting {
    reference: b"MKTAYIAKQR*",
    digest: b"Ks2I1vzJHEaa_cdLtFSYxWKc3rO1l8Af",
    records: 2,
    journal: 4,
    pool: 4,
};

pub const CALLS: &[Call] = &[
    // A stop gained: new, again after its withdrawal, and known on a wider interval. Then a gap.
    Call::Enter(8, 9, b"*"),
    Call::Withdraw(1),
    Call::Enter(8, 9, b"*"),
    Call::Enter(7, 10, b"K*R"),
    Call::Enter(3, 5, b"W-"),
    Call::Read(1),
    Call::Read(2),
    Call::Check,
    // At either end a byte that stands beside the residues is foreign, and a gap is not.
    Call::Change(FIRST_USED, b'+'),
    Call::Check,
    Call::Change(FIRST_USED, b'-'),
    Call::Check,
    Call::Change(LAST_USED, b'.'),
    Call::Check,
    Call::Change(LAST_USED, b'-'),
    Call::Check,
    Call::Read(1),
];
