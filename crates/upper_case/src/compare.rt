// How far a stretch agrees with another that is read as upper case.
ghost use Rattle.std.specs.Prelude.{◌≡◌};
ghost use Rattle.stretch.specs.Common.{lcp};
ghost use Rattle.upper_case.specs.Upper.{folded};

use super::reading::UpperCase;
use stretch::{Front, agreed};

// The length of the longest common prefix.
pub fn common_prefix_folded(a: &[u8], b: &[u8]) -> usize
    ensures { result ≡ lcp a.now (folded b.now) }
{
    agreed::<Front, UpperCase>(a, b)
}
