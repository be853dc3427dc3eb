// The stretches that `text_reader` hands back, each told to C as the place where it lies and its length. A promise
// speaks of a stretch's bytes and not of its place: tests/stretches looks at that.
#![tactic(auto)]

ghost use Rattle.std.specs.Prelude.{◌≡◌, ℕ, List, length};
ghost use Rattle.text_reader.specs.Accepted.{LocationText, AlleleText, HandsBack};

use std::ptr;
use text_reader::{digest_of, location_of, sequence_of};

// Where a stretch lies: its start, seen as the place of no bytes, and its length.
#[repr(C)]
pub struct Handed {
    pub start: *const [u8; 0],
    pub length: usize,
}

fn hand(stretch: &[u8], to: &mut Handed)
    ensures { to.new.length ≡ length stretch.now }
{
    to.length = stretch.len();
    match stretch.first_chunk::<0>() {
        Some(start) => to.start = ptr::from_ref(start),
        None => to.start = ptr::null::<[u8; 0]>(),
    }
}

// The C interface has an export for each stretch.
#[unsafe(no_mangle)]
pub extern "C" fn handed_digest(text: &[u8], to: &mut Handed)
    ensures { (s : List ℕ) × HandsBack LocationText (λ t a. a.digest) text.now s
        × (to.new.length ≡ length s) }
{
    hand(digest_of(text), to);
}

#[unsafe(no_mangle)]
pub extern "C" fn handed_location(text: &[u8], to: &mut Handed)
    ensures { (s : List ℕ) × HandsBack AlleleText (λ t a. a.location) text.now s
        × (to.new.length ≡ length s) }
{
    hand(location_of(text), to);
}

#[unsafe(no_mangle)]
pub extern "C" fn handed_sequence(text: &[u8], to: &mut Handed)
    ensures { (s : List ℕ) × HandsBack AlleleText (λ t a. a.sequence) text.now s
        × (to.new.length ≡ length s) }
{
    hand(sequence_of(text), to);
}
