// What is laid over a buffer.
ghost use Rattle.std.specs.Prelude.{◌≡◌, ◌++◌, ◌+◌, ◌≤◌, length, map};
ghost use Rattle.stretch.specs.Over.{over, Wrote};
ghost use Rattle.stretch.specs.Three.{whole, whole_length};

use super::Three;
use super::readings::{AsGiven, Reading};

// Lays `from` over the front of `to`.
pub fn copy(to: &mut [u8], from: &[u8])
    requires { length from.now ≤ length to.old }
    ensures { to.new ≡ over to.old 0 from.now }
{
    copy_at(to, 0, from);
}

// Lays `from` over `to` from `place` on.
pub fn copy_at(to: &mut [u8], place: usize, from: &[u8])
    requires { place + length from.now ≤ length to.old }
    ensures { to.new ≡ over to.old place from.now }
{
    to[place..place + from.len()].copy_from_slice(from);
}

// Lays `from`, as it is read, over the front of `to`. By a loop also where it is read as given: of stretches that a
// `Three` holds the compiler can't see that they lie apart, and a copy by std then asks for C's memmove.
fn copy_read<R: Reading>(to: &mut [u8], from: &[u8])
    requires { length from.now ≤ length to.old }
    ensures { to.new ≡ over to.old 0 (map R.reads from.now) }
{
    for i in 0..from.len() {
        to[i] = R::read(from[i]);
    }
}

// Lays `from`, as it is read, over `to` from `place` on, and answers the place after it.
fn put_read<R: Reading>(to: &mut [u8], place: usize, from: &[u8]) -> usize
    requires { place + length from.now ≤ length to.old }
    ensures { Wrote to.old place (map R.reads from.now) to.new result }
{
    copy_read::<R>(&mut to[place..], from);
    place + from.len()
}

// The same, of bytes that are read as they are.
pub fn put(to: &mut [u8], place: usize, from: &[u8]) -> usize
    requires { place + length from.now ≤ length to.old }
    ensures { Wrote to.old place from.now to.new result }
{
    put_read::<AsGiven>(to, place, from)
}

// Lays three stretches over `to`, one after the other, from `place` on, the middle one as it is read, and
// answers the place after them.
pub fn put_three_read<R: Reading>(to: &mut [u8], place: usize, text: Three) -> usize
    requires { place + whole_length text ≤ length to.old }
    ensures { Wrote to.old place
        (text.entry.first.now ++ (map R.reads text.entry.middle.now ++ text.entry.last.now)) to.new
        result }
{
    let second = put(to, place, text.first);
    let third = put_read::<R>(to, second, text.middle);
    put(to, third, text.last)
}

// The same, all three as they are.
pub fn put_three(to: &mut [u8], place: usize, text: Three) -> usize
    requires { place + whole_length text ≤ length to.old }
    ensures { Wrote to.old place (whole text.entry) to.new result }
{
    put_three_read::<AsGiven>(to, place, text)
}
