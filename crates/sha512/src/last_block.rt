// The end of a message: its padding, and the digest.
ghost use Rattle.std.specs.Prelude.{◌≡◌};
ghost use Rattle.sha512.specs.Message.{sha512};
ghost use Rattle.sha512.specs.Feeding.{finished};

use super::Running;
use super::parts::{begin, feed};
use sha512_block::{BLOCK_SIZE, absorb};
use sha512_padding::{hash_bytes, pad};

// The digest of all that was fed. The bytes that wait, the mark and the 16 bytes of the length fill one
// block or two.
pub fn finish(state: Running) -> [u8; 64]
    ensures { result ≡ finished state }
{
    let Running { hash, block, total } = state;
    let waiting = (total % BLOCK_SIZE as u64) as usize;
    let end = (waiting + 17).next_multiple_of(BLOCK_SIZE);
    let mut zeros = [0; 2 * BLOCK_SIZE];
    let last = &mut zeros[..end];
    pad(last, &block[..waiting], total);
    hash_bytes(absorb(hash, last))
}

// The digest of a message that comes whole.
pub fn of_message(message: &[u8]) -> [u8; 64]
    ensures { result ≡ sha512 message.now }
{
    finish(feed(begin(), message))
}
