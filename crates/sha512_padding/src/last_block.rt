// The last block's padding (FIPS 180-4, section 5.1.2), and the digest's bytes.
ghost use Rattle.std.specs.Prelude.{◌≡◌, ◌++◌, ◌+◌, ◌%◌, length, replicate};
ghost use Rattle.sha512_block.specs.Blocks.{block_size};
ghost use Rattle.sha512_padding.specs.Padding.{padding, hash_bytes};

use sha512_block::Hash;
use stretch::{copy, copy_at};

// Fills `out`, which holds zeros, with `head` and the padding of a message of `total` bytes: a mark, and
// at the end the count of bits as a 128-bit number.
pub fn pad(out: &mut [u8], head: &[u8], total: u64)
    requires head_len { length head.now ≡ total % block_size }
    requires out_value { out.old ≡ replicate (length head.now + length (padding total)) 0 }
    ensures { out.new ≡ head.now ++ padding total }
{
    let bits = u128::from(total) * 8;
    let length_at = out.len() - 16;
    copy(out, head);
    out[head.len()] = 0x80;
    copy_at(out, length_at, &bits.to_be_bytes());
}

// The 64 bytes of a hash value.
pub fn hash_bytes(s: Hash) -> [u8; 64]
    ensures { result ≡ hash_bytes s }
{
    let words = [s.a, s.b, s.c, s.d, s.e, s.f, s.g, s.h];
    let mut out = [0; 64];
    for (i, word) in words.iter().enumerate() {
        copy_at(&mut out, i * 8, &word.to_be_bytes());
    }
    out
}
