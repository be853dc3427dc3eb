// Document 01's register example; at the end what its numbers are read as, and a check of the image before and after it
// is damaged.
use crate::calls::{Call, Setting};

const LAST_LETTER: usize = 140;

pub const SETTING: Setting = Setting {
    reference: b"TCAGCAGCAGT",
    digest: b"zR7HujP8jYfpROv-hBLZMHuR_5P4Zo0q",
    records: 2,
    journal: 3,
    pool: 15,
};

pub const CALLS: &[Call] = &[
    // Cases 1, 4, 2, 6 and 5, for which no record is left at case 6; the first is undone.
    Call::Enter(4, 4, b"CAG"),
    Call::Undo,
    Call::Enter(2, 3, b"T"),
    Call::Enter(1, 2, b"CAGC"),
    Call::Enter(3, 5, b"TTT"),
    Call::Enter(1, 5, b"CTGC"),
    // Behind a seal nothing is left to undo.
    Call::Withdraw(1),
    Call::Seal,
    Call::Undo,
    // Both numbers, and the two beside them.
    Call::Read(1),
    Call::Read(2),
    Call::Read(0),
    Call::Read(3),
    Call::Check,
    // The last letter in the pool becomes a small one, which is no residue.
    Call::Change(LAST_LETTER, b't'),
    Call::Check,
    Call::Read(1),
];
