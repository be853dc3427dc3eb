// The parts of an answer, laid one after the other.
ghost use Rattle.std.specs.Prelude.{◌≡◌, ◌++◌, ◌∷◌, [], ◌+◌, ◌≤◌, ◌<◌, length};
ghost use Rattle.stretch.specs.Over.{Wrote};
ghost use Rattle.decimals.specs.Decimal.{decimal};
ghost use Rattle.input_line.specs.Meaning.{space, line_feed};
ghost use Rattle.answer_line.specs.Answers.{word, shown_moves, front_room, moves_room};
ghost use Rattle.answer_line.specs.Inner.{head, refused_line};

use decimals::put_decimal;
use moved::Moved;
use normal_form::Kind;
use stretch::put;

// A text, and a number after it.
fn put_after(out: &mut [u8], at: usize, front: &[u8], n: u64) -> usize
    requires { at + (length front.now + 20) ≤ length out.old }
    ensures wrote { Wrote out.old at (front.now ++ decimal n) out.new result }
    ensures upper_bound { result ≤ at + (length front.now + 20) }
{
    let digits = put(out, at, front);
    put_decimal(out, digits, n)
}

// A kind in words, after a space.
fn word_of(kind: Kind) -> &'static [u8]
    ensures text { result.now ≡ space ∷ word kind }
    ensures upper_bound { length result.now ≤ 13 }
{
    match kind {
        Kind::Unchanged => b" unchanged",
        Kind::Substitution => b" substitution",
        Kind::Indel => b" indel",
    }
}

// The front of an answer, up to its replacement.
pub fn write_head(out: &mut [u8], start: u64, end: u64, kind: Kind, behind: &[u8]) -> usize
    requires { (front_room ≤ length out.old) × (length behind.now ≤ 2) }
    ensures wrote { Wrote out.old 0 (head start end kind behind.now) out.new result }
    ensures upper_bound { result ≤ front_room }
{
    let at = put_decimal(out, 0, start);
    let at = put_after(out, at, b" ", end);
    let at = put(out, at, word_of(kind));
    put(out, at, behind)
}

pub fn write_refused(out: &mut [u8], number: u64) -> usize
    requires { 29 ≤ length out.old }
    ensures { Wrote out.old 0 (refused_line number) out.new result }
{
    let end = put_after(out, 0, b"refused ", number);
    put(out, end, b"\n")
}

// How far the form moved, from `at` on, and the line feed after it.
pub fn put_moves(out: &mut [u8], at: usize, m: Moved) -> usize
    requires { at + moves_room < length out.old }
    ensures { Wrote out.old at (shown_moves m ++ (line_feed ∷ [])) out.new result }
{
    let mut next = at;
    for number in [
        m.left.widened,
        m.left.shrunk,
        m.right.widened,
        m.right.shrunk,
    ] {
        next = put_after(out, next, b" ", number);
    }
    put(out, next, b"\n")
}
