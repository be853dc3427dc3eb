// The alternates of ALT.
ghost use Rattle.std.specs.Prelude.{◌≡◌};
ghost use Rattle.fields.specs.Cut.{parted};
ghost use Rattle.vcf_line.specs.Line.{comma, at_place};
ghost use Rattle.vcf_line.specs.Calls.{counted};

use super::sites::read_site;
use fields::{count_marks, extent_of, nth_piece};
use refusal::Refusal;

// The alternate at a place of ALT, from 1, as it lies there. Of no such place, nothing: no `Option`, since an
// empty alternate and none are refused alike, by `no_alternate` over `at_place`.
pub fn alternate_of(alternates: &[u8], place: u64) -> &[u8]
    ensures { result.now ≡ at_place (parted comma alternates.now) place }
{
    if place == 0 {
        return &alternates[0..0];
    }
    match nth_piece(alternates, 0, b',', place - 1) {
        Some(extent) => extent_of(alternates, extent),
        None => &alternates[0..0],
    }
}

// How many places ALT has.
pub fn vcf_count(reference: &[u8], line: &[u8]) -> Result<u64, Refusal>
    ensures { result ≡ counted reference.now line.now }
{
    let site = read_site(reference, line)?;
    let marks = count_marks(extent_of(line, site.alternates), b',') as u64;
    Ok(marks + 1)
}
