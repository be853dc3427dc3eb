// Allele texts.
ghost use Rattle.std.specs.Prelude.{Ok, Err, IfOk, IfErr};
ghost use Rattle.refusal.specs.declared.Reason.TheVariants.{TextNotAccepted};
ghost use Rattle.text_reader.specs.Accepted.{AlleleText, ReadsAllele, HandsBack};

use super::AlleleParts;
use super::part::{Part, part_of, refused};
use alphabets::DIGEST_LENGTH;
use refusal::{Refusal, SEQUENCE_LIMIT};
use text::{AFTER_SEQUENCE, BEFORE_LOCATION, BEFORE_SEQUENCE};
use words::{Stopped, past_digest, past_residues, past_word};

// The parts of an allele text, or how far some allele text begins as this text does.
fn walk_allele(text: &[u8]) -> Result<AlleleParts, Stopped>
    ensures accepted { IfOk result (λ p. ReadsAllele text.now (Ok p)) }
    ensures stopped { IfErr result
        (λ s. ReadsAllele text.now (Err (record { reason = TextNotAccepted; value = s.at }))) }
{
    let location = past_word(text, Ok(0), &BEFORE_LOCATION)?;
    let middle = past_digest(text, Ok(location));
    let sequence = past_word(text, middle, &BEFORE_SEQUENCE)?;
    let behind = past_residues(text, Ok(sequence), SEQUENCE_LIMIT as usize)?;
    let close = past_word(text, Ok(behind), &AFTER_SEQUENCE)?;
    if close != text.len() {
        return Err(Stopped { at: close });
    }
    let length = behind - sequence;
    Ok(AlleleParts {
        location: location as u64,
        sequence: sequence as u64,
        length: length as u64,
    })
}

// Where the parts of an allele text lie.
pub fn read_allele(text: &[u8]) -> Result<AlleleParts, Refusal>
    ensures { ReadsAllele text.now result }
{
    walk_allele(text).map_err(refused)
}

// The location's digest in an allele text, as it lies there. Of a text that is refused, nothing. Each stretch of a text
// has a function of its own, as document 01 wants.
pub fn location_of(text: &[u8]) -> &[u8]
    ensures { HandsBack AlleleText (λ t a. a.location) text.now result.now }
{
    let read = read_allele(text).map(|allele| Part {
        from: allele.location,
        length: DIGEST_LENGTH as u64,
    });
    part_of(text, read)
}

// The sequence in an allele text, as it lies there. Of a text that is refused, nothing.
pub fn sequence_of(text: &[u8]) -> &[u8]
    ensures { HandsBack AlleleText (λ t a. a.sequence) text.now result.now }
{
    let read = read_allele(text).map(|allele| Part {
        from: allele.sequence,
        length: allele.length,
    });
    part_of(text, read)
}
