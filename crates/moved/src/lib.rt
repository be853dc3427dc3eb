// How far a normal form's interval lies from the one given (document 02, Q-5). The calls that answer a form
// answer these four numbers beside it; nothing is stored or compared by them.
//
// specs/Moved.antt defines them, and proofs/Ends.antt has their laws.
#![tactic(auto)]

ghost use Rattle.std.specs.Prelude.{◌++◌, Some, decimal, codes};

mod sides;

pub use sides::{moved_of, still};
use std::fmt;

// Of one side of the interval: the residues by which it widened past the one given, and those by which it
// shrank.
#[repr(C)]
#[derive(Clone, Copy)]
pub struct Side {
    pub widened: u64,
    pub shrunk: u64,
}

// The four numbers, as C reads them too: in the C library's answers they are four fields.
#[repr(C)]
#[derive(Clone, Copy)]
pub struct Moved {
    pub left: Side,
    pub right: Side,
}

impl fmt::Display for Side {
    ghost output = { λ s. Some (decimal s.widened ++ (codes " " ++ decimal s.shrunk)) };

    fn fmt<W: fmt::Write>(&self, f: &mut fmt::Formatter<W>) -> fmt::Result {
        let widened = self.widened;
        let shrunk = self.shrunk;
        write!(f, "{widened} {shrunk}")
    }
}

// The left side, then the right one.
impl fmt::Display for Moved {
    ghost output = { λ m. Some ((decimal m.left.widened ++ (codes " " ++ decimal m.left.shrunk))
        ++ (codes " " ++ (decimal m.right.widened ++ (codes " " ++ decimal m.right.shrunk)))) };

    fn fmt<W: fmt::Write>(&self, f: &mut fmt::Formatter<W>) -> fmt::Result {
        let left = self.left;
        let right = self.right;
        write!(f, "{left} {right}")
    }
}
