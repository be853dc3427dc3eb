// The fully justified normal form of an allele on a lent reference (document 01, "The normal form"), and
// how it is found. Crate `normal_form_calls` makes it a call, with its tests and its write.
//
// specs/Form.antt has the form over the reference and the altered sequence, specs/Stretches.antt its
// replacement as three stretches, specs/Steps.antt VRS's own steps to the same form, and
// specs/Worked.antt document 01's worked alleles.
#![tactic(auto)]

mod engine;
mod lengths;
mod pieces;
mod roll;
mod three;

pub use engine::{form_by_agreement, normalise, normalise_read};
pub use lengths::outline_of;
pub use pieces::{
    joined_length, joined_three, reference_after, reference_before, replacement_kept,
};
pub use three::first_foreign_of;

#[derive(Clone, Copy)]
pub enum Kind {
    Unchanged,
    Substitution,
    Indel,
}

// What a normal form takes from the lengths of two sequences and of their common prefix and suffix: its
// kind, and document 01's a and b, the lengths that it leaves out before and after its interval.
#[derive(Clone, Copy)]
pub struct Outline {
    pub kind: Kind,
    pub a: usize,
    pub b: usize,
}

#[derive(Clone, Copy)]
pub struct Interval {
    pub start: usize,
    pub end: usize,
}

// A normal form, with its replacement as three stretches: of the reference from `left` to the start
// given, of the replacement given between `from` and `to`, of the reference from the end given to
// `right`.
#[derive(Clone, Copy)]
pub struct Stretches {
    pub kind: Kind,
    pub start: usize,
    pub end: usize,
    pub given: Interval,
    pub left: usize,
    pub from: usize,
    pub to: usize,
    pub right: usize,
}
