// The test of well-formedness.
ghost use Rattle.std.specs.Prelude.{◌≡◌, [], ◌∷◌, leb};
ghost use Rattle.stretch.specs.Below.{below};
ghost use Rattle.image.specs.Fields.{journal_count};
ghost use Rattle.image.specs.Formed.{all, entry_good, well_formed};
ghost use Rattle.image.specs.Header.{Header};

use super::header::header_formed;
use super::number::read_number;
use super::records::records_formed;
use super::{ENTRY_SIZE, ISSUED_AT, JOURNAL_COUNT_AT, JOURNAL_OFFSET_AT};

// Whether every journal entry is a number that was issued.
fn journal_formed(image: &[u8]) -> bool
    requires { Header image.now }
    ensures { result ≡ below (entry_good image.now) (journal_count image.now) }
{
    let issued = read_number(image, ISSUED_AT);
    let journal = read_number(image, JOURNAL_OFFSET_AT);
    let count = read_number(image, JOURNAL_COUNT_AT);
    (0..count).all(|passed| {
        let entry = read_number(image, journal + ENTRY_SIZE * passed);
        (1..=issued).contains(&entry)
    })
}

// Whether an image is well formed: its header first, by which the rest is read.
pub fn well_formed(image: &[u8]) -> bool
    ensures { result ≡ well_formed image.now }
{
    header_formed(image) && records_formed(image) && journal_formed(image)
}
