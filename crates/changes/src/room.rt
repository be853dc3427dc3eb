// The room that a change asks of the journal.
ghost use Rattle.std.specs.Prelude.{◌≡◌, [], ◌∷◌};
ghost use Rattle.refusal.specs.Verdict.{verdict, tell};
ghost use Rattle.image.specs.Header.{Header};
ghost use Rattle.changes.specs.Grounds.{no_journal_room};

use image::{JOURNAL_CAPACITY_AT, JOURNAL_COUNT_AT, read_number};
use refusal::{Reason, Refusal, refuse};

// The test 15.
pub fn check_journal(image: &[u8]) -> Result<(), Refusal>
    requires { Header image.now }
    ensures { result ≡ tell (verdict (no_journal_room image.now ∷ [])) tt }
{
    let capacity = read_number(image, JOURNAL_CAPACITY_AT);
    if capacity <= read_number(image, JOURNAL_COUNT_AT) {
        return Err(refuse(Reason::NoJournalRoom, capacity as u64));
    }
    Ok(())
}
