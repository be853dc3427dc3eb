// Base64url (RFC 4648, section 5) of a digest's first 24 bytes.
ghost use Rattle.std.specs.Prelude.{◌≡◌, ◌<◌, ◌≤◌, length};
ghost use Rattle.stretch.specs.Over.{over};
ghost use Rattle.alphabets.specs.Alphabets.{digest_length};
ghost use Rattle.digest_text.specs.Base64.{character, group};
ghost use Rattle.digest_text.specs.Digest.{digest_text};

use stretch::copy_at;

fn character_of(n: u8) -> u8
    requires { n < 64 }
    ensures { result ≡ character n }
{
    match n {
        0..=25 => b'A' + n,
        26..=51 => b'a' + (n - 26),
        52..=61 => b'0' + (n - 52),
        62 => b'-',
        _ => b'_',
    }
}

// The four characters of three bytes.
pub fn group_of(a: u8, b: u8, c: u8) -> [u8; 4]
    ensures { result ≡ group a b c }
{
    let second = a % 4 * 16 + b / 16;
    let third = b % 16 * 4 + c / 64;
    [
        character_of(a / 4),
        character_of(second),
        character_of(third),
        character_of(c % 64),
    ]
}

// Lays the characters of a digest text over the front of `out`.
pub fn write_digest_text(out: &mut [u8], digest: &[u8])
    requires digest_length_in_bounds { digest_length ≤ length out.old }
    requires in_bounds { 24 ≤ length digest.now }
    ensures { out.new ≡ over out.old 0 (digest_text digest.now) }
{
    let (groups, _) = digest[..24].as_chunks::<3>();
    for (i, [a, b, c]) in groups.iter().enumerate() {
        copy_at(out, i * 4, &group_of(*a, *b, *c));
    }
}
