// Letters in either case.
ghost use Rattle.std.specs.Prelude.{◌≡◌};
ghost use Rattle.upper_case.specs.Upper.{upper, either_case, lettered};

use alphabets::{Class, all_of, is_letter};

// A letter from a to z as that from A to Z, any other byte as it is.
pub fn upper_of(b: u8) -> u8
    ensures { result ≡ upper b }
{
    b.to_ascii_uppercase()
}

// The letters in either case.
pub struct EitherCase;

impl Class for EitherCase {
    ghost class = { either_case };

    fn contains(b: u8) -> bool {
        is_letter(upper_of(b))
    }
}

// Whether `s` is one or more letters, in either case.
pub fn is_lettered(s: &[u8]) -> bool
    ensures { result ≡ lettered s.now }
{
    !s.is_empty() && all_of::<EitherCase>(s)
}
