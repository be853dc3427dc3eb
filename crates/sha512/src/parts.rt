// A message that comes in parts. The state goes in by value and comes back.
ghost use Rattle.std.specs.Prelude.{◌≡◌, ◌+◌, ◌≤◌, ◌++◌, length};
ghost use Rattle.sha512_block.specs.Blocks.{block_size};
ghost use Rattle.sha512.specs.Feeding.{filled, begun, after, fed};

use super::Running;
use sha512_block::{BLOCK_SIZE, Hash, absorb, initial_hash};
use stretch::{copy, copy_at};

pub fn begin() -> Running
    ensures { result ≡ begun }
{
    Running {
        hash: initial_hash(),
        block: [0; BLOCK_SIZE],
        total: 0,
    }
}

// A block of the bytes of `head`, then those of `more`, then zeros.
fn fill(head: &[u8], more: &[u8]) -> [u8; BLOCK_SIZE]
    requires { length head.now + length more.now ≤ block_size }
    ensures { result ≡ filled (head.now ++ more.now) }
{
    let mut block = [0u8; BLOCK_SIZE];
    copy(&mut block, head);
    copy_at(&mut block, head.len(), more);
    block
}

// The state after `part`, from a hash value at a block's edge.
fn feed_aligned(hash: Hash, total: u64, part: &[u8]) -> Running
    ensures { result ≡ after hash total part.now }
{
    let (_, rest) = part.as_chunks::<BLOCK_SIZE>();
    Running {
        hash: absorb(hash, part),
        block: fill(rest, b""),
        total,
    }
}

// The state after one more part. Its whole blocks are hashed where they lie.
pub fn feed(state: Running, part: &[u8]) -> Running
    ensures { result ≡ fed state part.now }
{
    let Running { hash, block, total } = state;
    let waiting = &block[..(total % BLOCK_SIZE as u64) as usize];
    let total = total.wrapping_add(part.len() as u64);
    if waiting.is_empty() {
        return feed_aligned(hash, total, part);
    }
    match part.split_at_checked(BLOCK_SIZE - waiting.len()) {
        Some((first, more)) => {
            let whole = fill(waiting, first);
            feed_aligned(absorb(hash, &whole), total, more)
        }
        None => Running {
            hash,
            block: fill(waiting, part),
            total,
        },
    }
}
