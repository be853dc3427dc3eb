// Where a text is cut: the next byte of one value from a place on, and the pieces between such bytes by their
// number, as a scanner of lines and of fields needs them. Crates `input_line` and `vcf_line` stand on it.
//
// specs/Cut.antt has a text's pieces, proofs/Cutting.antt how they lie between the places found, and
// proofs/Pieces.antt where the piece of a number lies.
#![tactic(auto)]

mod extents;
mod scan;

pub use extents::{count_marks, extent_of, nth_piece, piece_after};
pub use scan::next;

// Where a piece of a text lies: two places and no slice, so that what is found in a text is told by an equation.
#[derive(Clone, Copy)]
pub struct Extent {
    pub from: usize,
    pub to: usize,
}
