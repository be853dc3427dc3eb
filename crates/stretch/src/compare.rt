// How far two stretches agree, eight bytes at a step.
ghost use Rattle.std.specs.Prelude.{◌≡◌, ◌+◌, ◌*◌, ◌≤◌, true, length, drop, map};
ghost use Rattle.stretch.specs.Common.{lcp, lcs};
ghost use Rattle.stretch.specs.Same.{same};

use super::ends::{Back, End, Front};
use super::readings::{AsGiven, Reading};

// Whether eight bytes are the others as read. It looks at all of them, without a way out, so that they are
// compared at once.
fn same_word<R: Reading>(a: &[u8; 8], b: &[u8; 8]) -> bool
    ensures { result ≡ true → a.now ≡ map R.reads b.now }
{
    a.iter()
        .zip(b)
        .fold(true, |all, (x, y)| all & (*x == R::read(*y)))
}

// How many words agree from an end on.
fn words_agreed<E: End, R: Reading>(a: &[u8], b: &[u8]) -> usize
    ensures upper_bound { (result * 8 ≤ length a.now) × (result * 8 ≤ length b.now) }
    ensures value { lcp (E.order a.now) (E.order (map R.reads b.now)) ≡ result * 8
        + lcp (drop (result * 8) (E.order a.now)) (drop (result * 8) (E.order (map R.reads b.now))) }
{
    let room = a.len().min(b.len()) / 8;
    for i in 0..room {
        if !same_word::<R>(E::word(a, i), E::word(b, i)) {
            return i;
        }
    }
    room
}

// How many bytes of `a` agree, from an end on, with those of `b` as read.
#[inline(never)]
pub fn agreed<E: End, R: Reading>(a: &[u8], b: &[u8]) -> usize
    ensures { result ≡ lcp (E.order a.now) (E.order (map R.reads b.now)) }
{
    let room = a.len().min(b.len());
    for i in words_agreed::<E, R>(a, b) * 8..room {
        if E::byte(a, i) != R::read(E::byte(b, i)) {
            return i;
        }
    }
    room
}

// The length of the longest common prefix.
pub fn common_prefix(a: &[u8], b: &[u8]) -> usize
    ensures { result ≡ lcp a.now b.now }
{
    agreed::<Front, AsGiven>(a, b)
}

// The length of the longest common suffix.
pub fn common_suffix(a: &[u8], b: &[u8]) -> usize
    ensures { result ≡ lcs a.now b.now }
{
    agreed::<Back, AsGiven>(a, b)
}

// A function, since contracts above speak of `same` and not of a slice's `==`.
pub fn equal(a: &[u8], b: &[u8]) -> bool
    ensures { result ≡ same a.now b.now }
{
    a == b
}
