// The text and the identifier of an allele, in its normal form.
ghost use Rattle.std.specs.Prelude.{◌≡◌, ◌+◌, ◌≤◌, length};
ghost use Rattle.stretch.specs.Over.{over};
ghost use Rattle.alphabets.specs.Alphabets.{digest_length};
ghost use Rattle.normal_form.specs.Stretches.{Fits, joined_length, form_in};
ghost use Rattle.allele_identifier.specs.Identifier.{around_sequence, text_of};
ghost use Rattle.allele_identifier.specs.Calls.{WritesAllele, IdentifiesAllele};
ghost use Rattle.allele_identifier.specs.Inner.{allele_answer};

use super::Identified;
use super::hash::form_hash;
use alphabets::{DIGEST_LENGTH, check_digest_text};
use digest_text::place_identifier;
use location_identifier::location_digest;
use moved::moved_of;
use normal_form::{Stretches, joined_length, joined_three};
use normal_form_calls::{clean, locate};
use refusal::{Reason, Refusal, refuse, sum_exceeds};
use text::{ALLELE_WORDS, write_allele};

const ALLELE_PREFIX: [u8; 9] = *b"ga4gh:VA.";

const IDENTIFIER_LENGTH: u64 = (ALLELE_PREFIX.len() + DIGEST_LENGTH) as u64;

// The bytes of an allele text around its sequence: its words, and the location's digest.
const AROUND_SEQUENCE: usize = ALLELE_WORDS + DIGEST_LENGTH;

// The tests 1, 2, 3, 4, 7, 5. The five travel as they are: `fv_allele_text` and `fv_allele_identifier` take them so.
fn check_allele(
    reference: &[u8],
    start: u64,
    end: u64,
    replacement: &[u8],
    digest: &[u8],
) -> Result<Stretches, Refusal>
    ensures { result ≡ allele_answer reference.now start end replacement.now digest.now }
{
    let w = locate(reference, start, end, replacement)?;
    check_digest_text(digest)?;
    clean(reference, replacement, w)
}

// Lays the text of the form that the stretches hold over `out` from `at` on.
fn write_text(
    reference: &[u8],
    replacement: &[u8],
    digest: &[u8],
    w: Stretches,
    out: &mut [u8],
    at: usize,
)
    requires fits { Fits reference.now replacement.now w }
    requires digest_len { length digest.now ≡ digest_length }
    requires around_sequence_in_bounds { at + (joined_length w + around_sequence) ≤ length out.old }
    ensures { out.new ≡ over out.old at
        (text_of (form_in reference.now replacement.now w) digest.now) }
{
    let location = location_digest(w.start as u64, w.end as u64, digest);
    write_allele(
        &mut out[at..],
        &location,
        joined_three(reference, replacement, w),
    );
}

// Writes the text of the allele's normal form into `out` from `place` on.
pub fn allele_text(
    reference: &[u8],
    start: u64,
    end: u64,
    replacement: &[u8],
    digest: &[u8],
    out: &mut [u8],
    place: u64,
) -> Result<u64, Refusal>
    ensures { WritesAllele reference.now start end replacement.now digest.now
        out.old place result out.new }
{
    let w = check_allele(reference, start, end, replacement, digest)?;
    let length = (joined_length(w) + AROUND_SEQUENCE) as u64;
    if sum_exceeds(place, length, out.len() as u64) {
        return Err(refuse(Reason::OutputTooShort, length));
    }
    write_text(reference, replacement, digest, w, out, place as usize);
    Ok(length)
}

// Writes the identifier of the allele's normal form into `out` from `place` on, and answers how far it moved.
pub fn allele_identifier(
    reference: &[u8],
    start: u64,
    end: u64,
    replacement: &[u8],
    digest: &[u8],
    out: &mut [u8],
    place: u64,
) -> Result<Identified, Refusal>
    ensures { IdentifiesAllele reference.now start end replacement.now digest.now
        out.old place result out.new }
{
    let w = check_allele(reference, start, end, replacement, digest)?;
    if sum_exceeds(place, IDENTIFIER_LENGTH, out.len() as u64) {
        return Err(refuse(Reason::OutputTooShort, IDENTIFIER_LENGTH));
    }
    let hash = form_hash(reference, replacement, digest, w);
    let length = place_identifier(out, place, &ALLELE_PREFIX, &hash);
    Ok(Identified {
        length,
        moved: moved_of(w),
    })
}
