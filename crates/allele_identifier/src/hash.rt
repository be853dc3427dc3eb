// The hash of an allele text, as its parts lie, without the text being built.
ghost use Rattle.std.specs.Prelude.{◌≡◌, ◌+◌, ◌^◌, ◌<◌, length};
ghost use Rattle.stretch.specs.Three.{whole, whole_length};
ghost use Rattle.alphabets.specs.Alphabets.{digest_length};
ghost use Rattle.normal_form.specs.Stretches.{Fits, form_in};
ghost use Rattle.sha512.specs.Message.{sha512};
ghost use Rattle.text.specs.Layout.{allele_text, allele_words};
ghost use Rattle.allele_identifier.specs.Identifier.{text_of};

use location_identifier::location_digest;
use normal_form::{Stretches, joined_three};
use stretch::Three;
use text::{AFTER_SEQUENCE, BEFORE_LOCATION, BEFORE_SEQUENCE};

// The hash of an allele text whose replacement comes in three stretches.
fn allele_hash(location: &[u8], sequence: Three) -> [u8; 64]
    requires { length location.now + (whole_length sequence + allele_words) < 2 ^ 64 }
    ensures { result ≡ sha512 (allele_text location.now (whole sequence.entry)) }
{
    let parts: [&[u8]; 7] = [
        &BEFORE_LOCATION,
        location,
        &BEFORE_SEQUENCE,
        sequence.first,
        sequence.middle,
        sequence.last,
        &AFTER_SEQUENCE,
    ];
    let mut state = sha512::begin();
    for part in parts {
        state = sha512::feed(state, part);
    }
    sha512::finish(state)
}

// The hash of the text of the form that the stretches hold.
pub fn form_hash(reference: &[u8], replacement: &[u8], digest: &[u8], w: Stretches) -> [u8; 64]
    requires fits { Fits reference.now replacement.now w }
    requires digest_len { length digest.now ≡ digest_length }
    ensures { result ≡ sha512 (text_of (form_in reference.now replacement.now w) digest.now) }
{
    let location = location_digest(w.start as u64, w.end as u64, digest);
    allele_hash(&location, joined_three(reference, replacement, w))
}
