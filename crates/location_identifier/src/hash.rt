// The hash of a location text, and its digest.
ghost use Rattle.std.specs.Prelude.{◌≡◌, length};
ghost use Rattle.alphabets.specs.Alphabets.{digest_length};
ghost use Rattle.sha512.specs.Message.{sha512};
ghost use Rattle.digest_text.specs.Digest.{sha512t24u};
ghost use Rattle.text.specs.Layout.{location_text};

use alphabets::DIGEST_LENGTH;
use digest_text::write_digest_text;
use text::{LOCATION_WORDS, write_location};

// Room for a location text with two numbers of 20 digits.
const LONGEST_LOCATION: usize = LOCATION_WORDS + DIGEST_LENGTH + 2 * 20;

pub fn location_hash(start: u64, end: u64, digest: &[u8]) -> [u8; 64]
    requires { length digest.now ≡ digest_length }
    ensures { result ≡ sha512 (location_text start end digest.now) }
{
    let mut text = [0; LONGEST_LOCATION];
    let n = write_location(&mut text, start, end, digest);
    sha512::of_message(&text[0..n])
}

// The digest text that stands for a location in an allele text.
pub fn location_digest(start: u64, end: u64, digest: &[u8]) -> [u8; DIGEST_LENGTH]
    requires { length digest.now ≡ digest_length }
    ensures { result ≡ sha512t24u (location_text start end digest.now) }
{
    let hash = location_hash(start, end, digest);
    let mut text = [0; DIGEST_LENGTH];
    write_digest_text(&mut text, &hash);
    text
}
