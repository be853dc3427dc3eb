// The identifier of a whole reference.
ghost use Rattle.std.specs.Prelude.{◌≡◌};
ghost use Rattle.sequence_identifier.specs.Calls.{Identifies};
ghost use Rattle.sequence_identifier.specs.Inner.{whole_answer};

use alphabets::{DIGEST_LENGTH, first_foreign};
use digest_text::place_identifier;
use refusal::{REFERENCE_LIMIT, Reason, Refusal, refuse, sum_exceeds};

pub const SEQUENCE_PREFIX: [u8; 9] = *b"ga4gh:SQ.";

pub const IDENTIFIER_LENGTH: u64 = (SEQUENCE_PREFIX.len() + DIGEST_LENGTH) as u64;

// The tests 1, 4, 6, for an identifier from `place` on in a buffer of `room` bytes.
fn check_whole(reference: &[u8], place: u64, room: u64) -> Result<(), Refusal>
    ensures { result ≡ whole_answer reference.now room place }
{
    if REFERENCE_LIMIT < reference.len() as u64 {
        return Err(refuse(Reason::OverLimit, 0));
    }
    let foreign = first_foreign(reference);
    if foreign < reference.len() {
        return Err(refuse(Reason::ForeignByte, foreign as u64));
    }
    if sum_exceeds(place, IDENTIFIER_LENGTH, room) {
        return Err(refuse(Reason::OutputTooShort, IDENTIFIER_LENGTH));
    }
    Ok(())
}

// Writes the identifier of the residues of `reference` into `out` from `place` on.
pub fn sequence_identifier(reference: &[u8], out: &mut [u8], place: u64) -> Result<u64, Refusal>
    ensures { Identifies reference.now out.old place result out.new }
{
    let room = out.len() as u64;
    check_whole(reference, place, room)?;
    let hash = sha512::of_message(reference);
    Ok(place_identifier(out, place, &SEQUENCE_PREFIX, &hash))
}
