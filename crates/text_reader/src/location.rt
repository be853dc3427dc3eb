// Location texts.
ghost use Rattle.std.specs.Prelude.{Ok, Err, IfOk, IfErr};
ghost use Rattle.refusal.specs.declared.Reason.TheVariants.{TextNotAccepted};
ghost use Rattle.text_reader.specs.Accepted.{LocationText, ReadsLocation, HandsBack};

use super::LocationParts;
use super::part::{Part, part_of, refused};
use alphabets::DIGEST_LENGTH;
use refusal::{REFERENCE_LIMIT, Refusal};
use text::{AFTER_DIGEST, BEFORE_DIGEST, BEFORE_END, BEFORE_START};
use words::{Stopped, past_decimal, past_digest, past_word};

// The parts of a location text, or how far some location text begins as this text does.
fn walk_location(text: &[u8]) -> Result<LocationParts, Stopped>
    ensures accepted { IfOk result (λ p. ReadsLocation text.now (Ok p)) }
    ensures stopped { IfErr result
        (λ s. ReadsLocation text.now (Err (record { reason = TextNotAccepted; value = s.at }))) }
{
    let head = past_word(text, Ok(0), &BEFORE_END);
    let end = past_decimal(text, head, 0, REFERENCE_LIMIT)?;
    let middle = past_word(text, Ok(end.at), &BEFORE_START);
    let start = past_decimal(text, middle, 0, end.number)?;
    let digest = past_word(text, Ok(start.at), &BEFORE_DIGEST)?;
    let behind = past_digest(text, Ok(digest));
    let close = past_word(text, behind, &AFTER_DIGEST)?;
    if close != text.len() {
        return Err(Stopped { at: close });
    }
    Ok(LocationParts {
        start: start.number,
        end: end.number,
        digest: digest as u64,
    })
}

// The numbers of a location text, and where its digest lies.
pub fn read_location(text: &[u8]) -> Result<LocationParts, Refusal>
    ensures { ReadsLocation text.now result }
{
    walk_location(text).map_err(refused)
}

// The sequence digest of a location text, as it lies there. Of a text that is refused, nothing.
pub fn digest_of(text: &[u8]) -> &[u8]
    ensures { HandsBack LocationText (λ t a. a.digest) text.now result.now }
{
    let read = read_location(text).map(|location| Part {
        from: location.digest,
        length: DIGEST_LENGTH as u64,
    });
    part_of(text, read)
}
