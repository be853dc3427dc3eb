// Bytes read as upper case.
ghost use Rattle.std.specs.Prelude.{◌≡◌};
ghost use Rattle.upper_case.specs.Upper.{upper};

use super::letters::upper_of;
use stretch::Reading;

pub struct UpperCase;

impl Reading for UpperCase {
    ghost reads = { upper };

    fn read(b: u8) -> u8 {
        upper_of(b)
    }
}
