// The base64url alphabet and digest texts.
ghost use Rattle.std.specs.Prelude.{◌≡◌};
ghost use Rattle.stretch.specs.Class.{first_outside};
ghost use Rattle.alphabets.specs.Alphabets.{base64url, digest_text_answer};

use super::class::{Class, first_outside};
use refusal::{Reason, Refusal, refuse};

// The base64url characters.
pub struct Base64url;

impl Class for Base64url {
    ghost class = { base64url };

    fn contains(b: u8) -> bool {
        b.is_ascii_alphanumeric() | (b == b'-') | (b == b'_')
    }
}

// The offset of the first byte that is no base64url character, or the length where there is none.
pub fn first_outside_base64url(s: &[u8]) -> usize
    ensures { result ≡ first_outside base64url s.now }
{
    first_outside::<Base64url>(s)
}

// The characters of a digest text.
pub const DIGEST_LENGTH: usize = 32;

// Accepted is a text of so many base64url characters; any other is refused under 7, with that length
// where its own is another, else with the offset of its first bad character.
pub fn check_digest_text(text: &[u8]) -> Result<(), Refusal>
    ensures { result ≡ digest_text_answer text.now }
{
    if text.len() != DIGEST_LENGTH {
        return Err(refuse(Reason::BadDigestText, DIGEST_LENGTH as u64));
    }
    let at = first_outside_base64url(text);
    if at < text.len() {
        return Err(refuse(Reason::BadDigestText, at as u64));
    }
    Ok(())
}
