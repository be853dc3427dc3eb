// What a data line of a VCF file says (document 02, Q-1; source document 002): its columns, the site that POS and
// REF name on a lent reference, and the alternates of ALT. Crate `vcf_form` forms them.
//
// specs/Line.antt has the columns, the positions and the alternates, specs/Calls.antt the grounds 19 to 21 and what
// the calls promise, and proofs/Behind.antt that no byte behind ALT matters.
#![tactic(auto)]

mod alternates;
mod positions;
mod scan;
mod sites;

pub use alternates::{alternate_of, vcf_count};
pub use sites::read_site;

// A residue, as VCF counts: the first is 1.
#[derive(Clone, Copy)]
pub struct ResiduePosition(pub u64);

// A position between residues: 0 is before the first.
#[derive(Clone, Copy)]
pub struct InterbasePosition(pub u64);

// Where the columns lie that are read.
#[derive(Clone, Copy)]
pub struct Columns {
    pub pos: fields::Extent,
    pub reference: fields::Extent,
    pub alternates: fields::Extent,
}

// Where a line stands on the reference, and where its alternates lie in the line.
#[derive(Clone, Copy)]
pub struct Site {
    pub start: InterbasePosition,
    pub end: InterbasePosition,
    pub alternates: fields::Extent,
}
