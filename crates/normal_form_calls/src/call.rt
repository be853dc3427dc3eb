// The calls: an allele is tested, formed and written, each by its own function. What hands stretches on is laid into its
// callers, so that their nine words don't go through memory each time.
ghost use Rattle.std.specs.Prelude.{◌≡◌, ◌+◌, ◌≤◌, length, map};
ghost use Rattle.stretch.specs.Over.{Wrote};
ghost use Rattle.normal_form.specs.Stretches.{Fits, Countable, joined, joined_length};
ghost use Rattle.normal_form_calls.specs.Calls.{given_answer, located, located_clean, cleanly, form_of};
ghost use Rattle.normal_form_calls.specs.Calls.{Lays, Normalises};

use super::{Form, Formed};
use alphabets::first_foreign;
use moved::moved_of;
use normal_form::{Stretches, first_foreign_of, joined_length, joined_three, normalise};
use refusal::{REFERENCE_LIMIT, REPLACEMENT_LIMIT, Reason, Refusal, refuse, sum_exceeds};
use stretch::{AsGiven, Reading, put_three_read};

// The tests 1 to 4 of an allele as given.
pub fn check_given(
    reference: &[u8],
    start: u64,
    end: u64,
    replacement: &[u8],
) -> Result<(), Refusal>
    ensures { result ≡ given_answer reference.now start end replacement.now }
{
    if REFERENCE_LIMIT < reference.len() as u64 {
        return Err(refuse(Reason::OverLimit, 0));
    }
    if REPLACEMENT_LIMIT < replacement.len() as u64 {
        return Err(refuse(Reason::OverLimit, 1));
    }
    if end < start {
        return Err(refuse(Reason::StartAboveEnd, 0));
    }
    if (reference.len() as u64) < end {
        return Err(refuse(Reason::EndAboveReference, reference.len() as u64));
    }
    let foreign = first_foreign(replacement);
    if foreign < replacement.len() {
        return Err(refuse(Reason::ForeignByte, foreign as u64));
    }
    Ok(())
}

// Where the normal form lies, by the tests 1 to 4 alone: 5 is left to the caller.
#[inline(always)]
pub fn locate(
    reference: &[u8],
    start: u64,
    end: u64,
    replacement: &[u8],
) -> Result<Stretches, Refusal>
    ensures { result ≡ located reference.now start end replacement.now }
{
    check_given(reference, start, end, replacement)?;
    Ok(normalise(reference, start as usize, end as usize, replacement))
}

// 5 alone, of stretches that `locate` found.
#[inline(always)]
pub fn clean(reference: &[u8], replacement: &[u8], w: Stretches) -> Result<Stretches, Refusal>
    requires { Fits reference.now replacement.now w }
    ensures { result ≡ cleanly reference.now replacement.now w }
{
    let first = first_foreign_of(joined_three(reference, replacement, w));
    if first < joined_length(w) {
        return Err(refuse(Reason::ForeignNormalByte, first as u64));
    }
    Ok(w)
}

// Where the normal form lies, by the tests 1 to 5.
#[inline(always)]
pub fn locate_clean(
    reference: &[u8],
    start: u64,
    end: u64,
    replacement: &[u8],
) -> Result<Stretches, Refusal>
    ensures { result ≡ located_clean reference.now start end replacement.now }
{
    let w = locate(reference, start, end, replacement)?;
    clean(reference, replacement, w)
}

// The numbers of the form that the stretches hold.
pub fn form_of(w: Stretches) -> Form
    requires { Countable w }
    ensures { result ≡ form_of w }
{
    let kind = w.kind;
    let residues = joined_length(w) as u64;
    Form {
        kind,
        start: w.start as u64,
        end: w.end as u64,
        length: residues,
    }
}

// Lays the normal replacement over `out` from `at` on, what was given as it is read, and answers where it ends.
fn write_read<R: Reading>(
    reference: &[u8],
    replacement: &[u8],
    w: Stretches,
    out: &mut [u8],
    at: usize,
) -> usize
    requires fits { Fits reference.now (map R.reads replacement.now) w }
    requires w_in_bounds { at + joined_length w ≤ length out.old }
    ensures { Wrote out.old at
        (joined reference.now (map R.reads replacement.now) w) out.new result }
{
    let long = put_three_read::<R>(&mut out[at..], 0, joined_three(reference, replacement, w));
    at + long
}

// The same, of a replacement that is read as it is given.
pub fn write_form(
    reference: &[u8],
    replacement: &[u8],
    w: Stretches,
    out: &mut [u8],
    at: usize,
) -> usize
    requires fits { Fits reference.now replacement.now w }
    requires w_in_bounds { at + joined_length w ≤ length out.old }
    ensures { Wrote out.old at (joined reference.now replacement.now w)
        out.new result }
{
    write_read::<AsGiven>(reference, replacement, w, out, at)
}

// 6 alone, of stretches that are found: the form that they hold is written where there is room for it.
pub fn lay_form<R: Reading>(
    reference: &[u8],
    replacement: &[u8],
    w: Stretches,
    out: &mut [u8],
    place: u64,
) -> Result<Formed, Refusal>
    requires { Fits reference.now (map R.reads replacement.now) w }
    ensures { Lays reference.now (map R.reads replacement.now) w out.old place result
        out.new }
{
    let form = form_of(w);
    if sum_exceeds(place, form.length, out.len() as u64) {
        return Err(refuse(Reason::OutputTooShort, form.length));
    }
    write_read::<R>(reference, replacement, w, out, place as usize);
    Ok(Formed {
        form,
        moved: moved_of(w),
    })
}

// Writes the normal replacement of an allele into `out` from `place` on, and answers its form and how far
// it moved.
pub fn normal_form(
    reference: &[u8],
    start: u64,
    end: u64,
    replacement: &[u8],
    out: &mut [u8],
    place: u64,
) -> Result<Formed, Refusal>
    ensures { Normalises reference.now start end replacement.now out.old place result
        out.new }
{
    let w = locate_clean(reference, start, end, replacement)?;
    lay_form::<AsGiven>(reference, replacement, w, out, place)
}
