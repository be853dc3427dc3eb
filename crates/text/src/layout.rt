// The location text and the allele text, written.
ghost use Rattle.std.specs.Prelude.{◌+◌, ◌≤◌, length};
ghost use Rattle.stretch.specs.Over.{Wrote};
ghost use Rattle.stretch.specs.Three.{whole, whole_length};
ghost use Rattle.decimals.specs.Decimal.{decimal};
ghost use Rattle.text.specs.Layout.{location_text, location_words, allele_text, allele_words};

use decimals::put_decimal;
use stretch::{Three, put, put_three};

pub const BEFORE_END: [u8; 19] = *b"{\"interval\":{\"end\":";

pub const BEFORE_START: [u8; 9] = *b",\"start\":";

pub const BEFORE_DIGEST: [u8; 41] = *b",\"type\":\"SimpleInterval\"},\"sequence_id\":\"";

pub const AFTER_DIGEST: [u8; 28] = *b"\",\"type\":\"SequenceLocation\"}";

pub const BEFORE_LOCATION: [u8; 13] = *b"{\"location\":\"";

pub const BEFORE_SEQUENCE: [u8; 23] = *b"\",\"state\":{\"sequence\":\"";

pub const AFTER_SEQUENCE: [u8; 42] = *b"\",\"type\":\"SequenceState\"},\"type\":\"Allele\"}";

// The bytes of the words of a location text, and of an allele text.
pub const LOCATION_WORDS: usize = BEFORE_END.len()
    + BEFORE_START.len()
    + BEFORE_DIGEST.len()
    + AFTER_DIGEST.len();

pub const ALLELE_WORDS: usize = BEFORE_LOCATION.len()
    + BEFORE_SEQUENCE.len()
    + AFTER_SEQUENCE.len();

// Lays the location text over the front of `out`, and answers how long it is.
pub fn write_location(out: &mut [u8], start: u64, end: u64, digest: &[u8]) -> usize
    requires { length (decimal end) + (length (decimal start) + (length digest.now + location_words)) ≤ length out.old }
    ensures { Wrote out.old 0 (location_text start end digest.now) out.new result }
{
    let a = put(out, 0, &BEFORE_END);
    let b = put_decimal(out, a, end);
    let c = put(out, b, &BEFORE_START);
    let d = put_decimal(out, c, start);
    let rest = Three {
        first: &BEFORE_DIGEST,
        middle: digest,
        last: &AFTER_DIGEST,
    };
    put_three(out, d, rest)
}

// Lays the allele text of a replacement that comes in three stretches over the front of `out`, and
// answers how long it is.
pub fn write_allele(out: &mut [u8], location: &[u8], replacement: Three) -> usize
    requires { length location.now + (whole_length replacement + allele_words) ≤ length out.old }
    ensures { Wrote out.old 0 (allele_text location.now (whole replacement.entry)) out.new result }
{
    let front = Three {
        first: &BEFORE_LOCATION,
        middle: location,
        last: &BEFORE_SEQUENCE,
    };
    let second = put_three(out, 0, front);
    let third = put_three(out, second, replacement);
    put(out, third, &AFTER_SEQUENCE)
}
