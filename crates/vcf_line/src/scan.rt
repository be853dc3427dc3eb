// The columns of a line.
ghost use Rattle.std.specs.Prelude.{◌≡◌};
ghost use Rattle.vcf_line.specs.Inner.{columns_of};

use super::Columns;
use fields::{nth_piece, piece_after};

// Where POS, REF and ALT lie. What stands behind ALT is not looked at.
pub fn scan_columns(line: &[u8]) -> Option<Columns>
    ensures { result ≡ columns_of line.now }
{
    let pos = nth_piece(line, 0, b'\t', 1)?;
    let reference = piece_after(line, pos.to, b'\t', 1)?;
    let alternates = piece_after(line, reference.to, b'\t', 0)?;
    Some(Columns {
        pos,
        reference,
        alternates,
    })
}
