// The text and the identifier of a location on a reference of so many residues.
ghost use Rattle.std.specs.Prelude.{◌≡◌, ◌+◌, ◌≤◌, length, Ok};
ghost use Rattle.refusal.specs.Verdict.{accepted};
ghost use Rattle.refusal.specs.Writes.{Writes};
ghost use Rattle.text.specs.Layout.{location_text};
ghost use Rattle.location_identifier.specs.Calls.{WritesLocation, IdentifiesLocation};
ghost use Rattle.location_identifier.specs.Inner.{location_answer};

use super::hash::location_hash;
use alphabets::{DIGEST_LENGTH, check_digest_text};
use decimals::decimal_length;
use digest_text::place_identifier;
use refusal::{REFERENCE_LIMIT, Reason, Refusal, refuse, sum_exceeds};
use text::{LOCATION_WORDS, write_location};

const LOCATION_PREFIX: [u8; 10] = *b"ga4gh:VSL.";

const IDENTIFIER_LENGTH: u64 = (LOCATION_PREFIX.len() + DIGEST_LENGTH) as u64;

// The bytes of a location text around its numbers: its words, and the sequence's digest.
const AROUND_NUMBERS: usize = LOCATION_WORDS + DIGEST_LENGTH;

// The tests 1, 2, 3, 7. The four travel as they are: `fv_location_text` and `fv_location_identifier` take them so.
fn check_location(residues: u64, start: u64, end: u64, digest: &[u8]) -> Result<(), Refusal>
    ensures { result ≡ location_answer residues start end digest.now }
{
    if REFERENCE_LIMIT < residues {
        return Err(refuse(Reason::OverLimit, 0));
    }
    if end < start {
        return Err(refuse(Reason::StartAboveEnd, 0));
    }
    if residues < end {
        return Err(refuse(Reason::EndAboveReference, residues));
    }
    check_digest_text(digest)
}

// Writes the location text into `out`, which has room for it from `place` on.
fn place_text(start: u64, end: u64, digest: &[u8], out: &mut [u8], place: u64) -> u64
    requires { place + length (location_text start end digest.now) ≤ length out.old }
    ensures { Writes accepted (location_text start end digest.now) out.old place
        (Ok result) out.new }
{
    let at = place as usize;
    let written = write_location(&mut out[at..], start, end, digest);
    written as u64
}

// Writes the location text into `out` from `place` on.
pub fn location_text(
    residues: u64,
    start: u64,
    end: u64,
    digest: &[u8],
    out: &mut [u8],
    place: u64,
) -> Result<u64, Refusal>
    ensures { WritesLocation residues start end digest.now out.old place result out.new }
{
    check_location(residues, start, end, digest)?;
    let needed = (decimal_length(start) + decimal_length(end) + AROUND_NUMBERS) as u64;
    if sum_exceeds(place, needed, out.len() as u64) {
        return Err(refuse(Reason::OutputTooShort, needed));
    }
    Ok(place_text(start, end, digest, out, place))
}

// Writes the location's identifier into `out` from `place` on.
pub fn location_identifier(
    residues: u64,
    start: u64,
    end: u64,
    digest: &[u8],
    out: &mut [u8],
    place: u64,
) -> Result<u64, Refusal>
    ensures { IdentifiesLocation residues start end digest.now out.old place result out.new }
{
    check_location(residues, start, end, digest)?;
    if sum_exceeds(place, IDENTIFIER_LENGTH, out.len() as u64) {
        return Err(refuse(Reason::OutputTooShort, IDENTIFIER_LENGTH));
    }
    let hash = location_hash(start, end, digest);
    Ok(place_identifier(out, place, &LOCATION_PREFIX, &hash))
}
