// The site of a line, by the tests 1, 19 and 20.
ghost use Rattle.std.specs.Prelude.{◌≡◌, ◌≤◌, length};
ghost use Rattle.refusal.specs.Limits.{reference_limit};
ghost use Rattle.vcf_line.specs.Inner.{sited, compared};

use super::positions::{before_residue, onward, position_after, read_position};
use super::scan::scan_columns;
use super::{InterbasePosition, Site};
use fields::{Extent, extent_of};
use refusal::{REFERENCE_LIMIT, Reason, Refusal, refuse};
use upper_case::{common_prefix_folded, is_lettered};

// 20 alone: REF, as it is given, against the reference from `start` on.
fn compare_ref(
    reference: &[u8],
    start: InterbasePosition,
    given: &[u8],
    alternates: Extent,
) -> Result<Site, Refusal>
    requires { (length reference.now ≤ reference_limit) × (start.0 ≤ length reference.now) }
    ensures { result ≡ compared reference.now start given.now alternates }
{
    let shared = common_prefix_folded(onward(reference, start), given);
    if shared < given.len() {
        return Err(refuse(Reason::RefDiffers, shared as u64));
    }
    let end = position_after(start, given.len());
    Ok(Site {
        start,
        end,
        alternates,
    })
}

// Where a line stands on the reference.
pub fn read_site(reference: &[u8], line: &[u8]) -> Result<Site, Refusal>
    ensures { result ≡ sited reference.now line.now }
{
    if REFERENCE_LIMIT < reference.len() as u64 {
        return Err(refuse(Reason::OverLimit, 0));
    }
    let unread = refuse(Reason::NoDataLine, 0);
    let Some(columns) = scan_columns(line) else {
        return Err(unread);
    };
    let given = extent_of(line, columns.reference);
    if !is_lettered(given) {
        return Err(unread);
    }
    let residues = reference.len() as u64;
    let Some(residue) = read_position(extent_of(line, columns.pos), residues) else {
        return Err(unread);
    };
    compare_ref(
        reference,
        before_residue(residue),
        given,
        columns.alternates,
    )
}
