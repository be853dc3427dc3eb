// The block step: FIPS 180-4, section 6.4.2, with the whole schedule of 80 words.
ghost use Rattle.std.specs.Prelude.{◌≡◌, ◌<◌, take};
ghost use Rattle.sha512_block.specs.Words.{◌⊞◌, σ₀, σ₁};
ghost use Rattle.sha512_block.specs.Block.{block_words, schedule, round, round_at, rounds, chained, compressed};
ghost use Rattle.sha512_block.specs.Blocks.{hashed};

use super::constants::ROUND_CONSTANTS;
use super::words::{add, big_sigma_0, big_sigma_1, choose, majority, small_sigma_0, small_sigma_1};
use super::{BLOCK_SIZE, Hash};
use stretch::read_word;

// The block's sixteen words at the front of the schedule.
fn load(w: &mut [u64; 80], block: &[u8; BLOCK_SIZE])
    ensures { take 16 w.new ≡ block_words 16 block.now }
{
    for t in 0..16 {
        w[t] = read_word(block, t * 8);
    }
}

fn mixed(w14: u64, w9: u64, w1: u64, w0: u64) -> u64
    ensures { result ≡ σ₁ w14 ⊞ w9 ⊞ σ₀ w1 ⊞ w0 }
{
    let left = add(small_sigma_1(w14), w9);
    add(add(left, small_sigma_0(w1)), w0)
}

// The other 64 words.
fn extend(w: &mut [u64; 80])
    ensures { w.new ≡ schedule 64 (take 16 w.old) }
{
    for t in 0..64 {
        w[t + 16] = mixed(w[t + 14], w[t + 9], w[t + 1], w[t]);
    }
}

fn one_round(s: Hash, k: u64, w: u64) -> Hash
    ensures { result ≡ round s k w }
{
    let t0 = add(add(s.h, big_sigma_1(s.e)), choose(s.e, s.f, s.g));
    let t1 = add(add(t0, k), w);
    let t2 = add(big_sigma_0(s.a), majority(s.a, s.b, s.c));
    Hash {
        a: add(t1, t2),
        b: s.a,
        c: s.b,
        d: s.c,
        e: add(s.d, t1),
        f: s.e,
        g: s.f,
        h: s.g,
    }
}

fn round_at(s: Hash, t: usize, w: &[u64; 80]) -> Hash
    requires { t < 80 }
    ensures { result ≡ round_at t w.now s }
{
    one_round(s, ROUND_CONSTANTS[t], w[t])
}

// Four rounds a turn spare the eight words most of their moves from variable to variable.
fn all_rounds(start: Hash, w: &[u64; 80]) -> Hash
    ensures { result ≡ rounds 80 w.now start }
{
    let mut s = start;
    for t in (0..80).step_by(4) {
        let s1 = round_at(s, t, w);
        let s2 = round_at(s1, t + 1, w);
        let s3 = round_at(s2, t + 2, w);
        s = round_at(s3, t + 3, w);
    }
    s
}

fn chain(s: Hash, t: Hash) -> Hash
    ensures { result ≡ chained s t }
{
    Hash {
        a: add(s.a, t.a),
        b: add(s.b, t.b),
        c: add(s.c, t.c),
        d: add(s.d, t.d),
        e: add(s.e, t.e),
        f: add(s.f, t.f),
        g: add(s.g, t.g),
        h: add(s.h, t.h),
    }
}

fn compress(s: Hash, block: &[u8; BLOCK_SIZE]) -> Hash
    ensures { result ≡ compressed s block.now }
{
    let mut w = [0u64; 80];
    load(&mut w, block);
    extend(&mut w);
    chain(s, all_rounds(s, &w))
}

// The hash value after every whole block of `bytes`, each taken where it lies.
pub fn absorb(start: Hash, bytes: &[u8]) -> Hash
    ensures { result ≡ hashed start bytes.now }
{
    let mut s = start;
    let (blocks, _) = bytes.as_chunks::<BLOCK_SIZE>();
    for block in blocks {
        s = compress(s, block);
    }
    s
}
