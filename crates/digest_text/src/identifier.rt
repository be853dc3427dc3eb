// Identifiers: a prefix and a digest text.
ghost use Rattle.std.specs.Prelude.{◌≡◌, ◌++◌, ◌+◌, ◌≤◌, length, Ok};
ghost use Rattle.stretch.specs.Over.{over};
ghost use Rattle.refusal.specs.Verdict.{accepted};
ghost use Rattle.refusal.specs.Writes.{Writes};
ghost use Rattle.alphabets.specs.Alphabets.{digest_length};
ghost use Rattle.digest_text.specs.Digest.{digest_text};

use super::base64::write_digest_text;
use alphabets::DIGEST_LENGTH;
use stretch::copy;

// Lays a prefix and the digest's text over the front of `out`. The digest is a slice here and below, since any of
// 24 bytes or more has a text: an array would ask for 64.
pub fn write_identifier(out: &mut [u8], prefix: &[u8], digest: &[u8])
    requires digest_length_in_bounds { length prefix.now + digest_length ≤ length out.old }
    requires in_bounds { 24 ≤ length digest.now }
    ensures { out.new ≡ over out.old 0 (prefix.now ++ digest_text digest.now) }
{
    copy(out, prefix);
    write_digest_text(&mut out[prefix.len()..], digest);
}

// Writes a prefix and the digest's text into `out`, which has room for them from `place` on, and answers how
// many bytes.
pub fn place_identifier(out: &mut [u8], place: u64, prefix: &[u8], digest: &[u8]) -> u64
    requires digest_length_in_bounds { place + (length prefix.now + digest_length) ≤ length out.old }
    requires in_bounds { 24 ≤ length digest.now }
    ensures { Writes accepted (prefix.now ++ digest_text digest.now) out.old place
        (Ok result) out.new }
{
    let from = place as usize;
    write_identifier(&mut out[from..], prefix, digest);
    (prefix.len() + DIGEST_LENGTH) as u64
}
