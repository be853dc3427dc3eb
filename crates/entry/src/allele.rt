// Entry of an allele, in its normal form.
ghost use Rattle.std.specs.Prelude.{◌≡◌, true};
ghost use Rattle.normal_form.specs.Stretches.{Fits, form_in};
ghost use Rattle.moved.specs.Moved.{moved_in};
ghost use Rattle.image.specs.Formed.{well_formed};
ghost use Rattle.image.specs.Header.{Header};
ghost use Rattle.form_entry.specs.Calls.{EntersForm};
ghost use Rattle.entry.specs.Calls.{Enters};
ghost use Rattle.entry.specs.Inner.{image_answer, change_answer, EntersAllele};

use form_entry::{Entered, enter_form};
use image::{DIGEST_AT, HEADER_SIZE, REFERENCE_LENGTH_AT, read_number};
use moved::moved_of;
use normal_form::{Kind, Stretches, joined_three};
use normal_form_calls::{form_of, locate_clean};
use record_reader::check;
use refusal::{Reason, Refusal, refuse};
use stretch::equal;

// The tests 10, 11.
#[tactic(auto, unfolding(crate::specs::Calls::image_grounds))]
fn check_image(image: &[u8], digest: &[u8], reference: &[u8]) -> Result<(), Refusal>
    ensures { result ≡ image_answer image.now digest.now reference.now }
{
    check(image)?;
    if !equal(digest, &image[DIGEST_AT..HEADER_SIZE]) {
        return Err(refuse(Reason::OtherReference, 0));
    }
    if reference.len() != read_number(image, REFERENCE_LENGTH_AT) {
        return Err(refuse(Reason::OtherReference, 1));
    }
    Ok(())
}

// The tests 1, 2, 3, 4, 5, 12.
fn check_change(
    reference: &[u8],
    start: u64,
    end: u64,
    replacement: &[u8],
) -> Result<Stretches, Refusal>
    ensures { result ≡ change_answer reference.now start end replacement.now }
{
    let w = locate_clean(reference, start, end, replacement)?;
    if matches!(w.kind, Kind::Unchanged) {
        return Err(refuse(Reason::UnchangedAllele, 0));
    }
    Ok(w)
}

// Enters the form that the stretches hold.
fn enter_stretches(
    image: &mut [u8],
    reference: &[u8],
    replacement: &[u8],
    w: Stretches,
) -> Result<Entered, Refusal>
    requires header { Header image.old }
    requires image_value { well_formed image.old ≡ true }
    requires fits { Fits reference.now replacement.now w }
    ensures { EntersForm image.old (form_in reference.now replacement.now w) (moved_in w) result
        image.new }
{
    let text = joined_three(reference, replacement, w);
    enter_form(image, form_of(w), moved_of(w), text)
}

// The tests 1, 2, 3, 4, 5, 12, and the entry of the normal form.
fn enter_allele(
    image: &mut [u8],
    reference: &[u8],
    start: u64,
    end: u64,
    replacement: &[u8],
) -> Result<Entered, Refusal>
    requires header { Header image.old }
    requires image_value { well_formed image.old ≡ true }
    ensures { EntersAllele image.old reference.now start end replacement.now result
        image.new }
{
    let w = check_change(reference, start, end, replacement)?;
    enter_stretches(image, reference, replacement, w)
}

// Enters the allele, where the image is of this digest and reference.
pub fn entry(
    image: &mut [u8],
    digest: &[u8],
    reference: &[u8],
    start: u64,
    end: u64,
    replacement: &[u8],
) -> Result<Entered, Refusal>
    ensures { Enters image.old digest.now reference.now start end
        replacement.now result image.new }
{
    check_image(image, digest, reference)?;
    enter_allele(image, reference, start, end, replacement)
}
