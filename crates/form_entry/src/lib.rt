// Which number a normal form gets in a register's image (document 01, "Entry"): "known", else "again", else
// "new", where there is room. Crate `entry` makes it a call, with the tests of image and allele.
//
// specs/Found.antt has how a form is found and what its entry is answered and leaves, and specs/Calls.antt what
// that entry promises.
#![tactic(auto)]

mod form;

pub use form::enter_form;

// How an entry found its allele: nowhere, inactive, or active.
#[derive(Clone, Copy, PartialEq, Eq, Debug)]
pub enum Way {
    New,
    Again,
    Known,
}

// The answer of an accepted entry: how the allele was found, its number, and how far its normal form moved.
#[derive(Clone, Copy)]
pub struct Entered {
    pub found: Way,
    pub number: u64,
    pub moved: moved::Moved,
}
