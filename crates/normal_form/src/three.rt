// Three stretches that lie apart and are one text.
ghost use Rattle.std.specs.Prelude.{◌≡◌, ◌^◌, ◌<◌};
ghost use Rattle.stretch.specs.Three.{whole, whole_length};
ghost use Rattle.alphabets.specs.Alphabets.{foreign};

use alphabets::first_foreign;
use stretch::Three;

// The offset of the first byte of the text that is no residue, or its length where there is none.
#[inline(always)]
pub fn first_foreign_of(text: Three) -> usize
    requires { whole_length text < 2 ^ 64 }
    ensures { result ≡ foreign (whole text.entry) }
{
    let x = first_foreign(text.first);
    if x < text.first.len() {
        return x;
    }
    let y = first_foreign(text.middle);
    if y < text.middle.len() {
        return x + y;
    }
    x + y + first_foreign(text.last)
}
