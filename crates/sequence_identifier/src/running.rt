// The running digest of a reference that comes in parts.
ghost use Rattle.std.specs.Prelude.{◌≡◌};
ghost use Rattle.sha512.specs.Feeding.{begun};
ghost use Rattle.sequence_identifier.specs.Calls.{Finishes, part_answer, feeding};
ghost use Rattle.sequence_identifier.specs.Inner.{finish_answer};

use super::identifier::{IDENTIFIER_LENGTH, SEQUENCE_PREFIX};
use alphabets::first_foreign;
use digest_text::place_identifier;
use refusal::{REFERENCE_LIMIT, Reason, Refusal, refuse, sum_exceeds};
use sha512::Running;

// A running digest of nothing yet.
pub fn begin() -> Running
    ensures { result ≡ begun }
{
    sha512::begin()
}

// The tests 1, 4 of a part.
fn check_part(total: u64, part: &[u8]) -> Result<(), Refusal>
    ensures { result ≡ part_answer total part.now }
{
    if sum_exceeds(total, part.len() as u64, REFERENCE_LIMIT) {
        return Err(refuse(Reason::OverLimit, 0));
    }
    let foreign = first_foreign(part);
    if foreign < part.len() {
        return Err(refuse(Reason::ForeignByte, foreign as u64));
    }
    Ok(())
}

// Goes on with one more part. A refused part leaves the state as it was.
pub fn feed(state: &mut Running, part: &[u8]) -> Result<(), Refusal>
    ensures answers { result ≡ part_answer state.old.total part.now }
    ensures leaves { state.new ≡ feeding state.old part.now }
{
    check_part(state.total, part)?;
    *state = sha512::feed(*state, part);
    Ok(())
}

// The tests 1, 6 of a finish.
fn check_finish(total: u64, place: u64, room: u64) -> Result<(), Refusal>
    ensures { result ≡ finish_answer total room place }
{
    if REFERENCE_LIMIT < total {
        return Err(refuse(Reason::OverLimit, 0));
    }
    if sum_exceeds(place, IDENTIFIER_LENGTH, room) {
        return Err(refuse(Reason::OutputTooShort, IDENTIFIER_LENGTH));
    }
    Ok(())
}

// Writes the identifier of all the parts into `out` from `place` on. The state stays the caller's.
pub fn finish(state: Running, out: &mut [u8], place: u64) -> Result<u64, Refusal>
    ensures { Finishes state out.old place result out.new }
{
    let room = out.len() as u64;
    check_finish(state.total, place, room)?;
    let hash = sha512::finish(state);
    Ok(place_identifier(out, place, &SEQUENCE_PREFIX, &hash))
}
