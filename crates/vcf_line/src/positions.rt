// The two counts of positions, and the one place where the one becomes the other.
ghost use Rattle.std.specs.Prelude.{◌≡◌, ◌+◌, ◌^◌, ◌<◌, ◌≤◌, length, drop};
ghost use Rattle.vcf_line.specs.Line.{before, past};
ghost use Rattle.vcf_line.specs.Inner.{position_within};

use super::{InterbasePosition, ResiduePosition};
use decimals::read_decimal_within;

// The residue that POS names, on a reference of so many.
pub fn read_position(text: &[u8], residues: u64) -> Option<ResiduePosition>
    ensures { result ≡ position_within residues text.now }
{
    read_decimal_within(text, 1, residues).map(ResiduePosition)
}

// The position before a residue.
pub fn before_residue(residue: ResiduePosition) -> InterbasePosition
    requires { 0 < residue.0 }
    ensures { result ≡ before residue }
{
    InterbasePosition(residue.0 - 1)
}

// The position so many residues further.
pub fn position_after(start: InterbasePosition, residues: usize) -> InterbasePosition
    requires { start.0 + residues < 2 ^ 64 }
    ensures { result ≡ past start residues }
{
    InterbasePosition(start.0 + residues as u64)
}

// The reference from a position on.
pub fn onward(reference: &[u8], start: InterbasePosition) -> &[u8]
    requires { start.0 ≤ length reference.now }
    ensures { result.now ≡ drop start.0 reference.now }
{
    &reference[start.0 as usize..]
}
