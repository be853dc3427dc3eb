// Classes of bytes, asked of the bytes of a stretch.
ghost use Rattle.std.specs.Prelude.{◌≡◌, ℕ, Bool};
ghost use Rattle.stretch.specs.Class.{every, first_outside};

// A class of bytes.
pub trait Class {
    ghost class: { ℕ → Bool };

    fn contains(b: u8) -> bool
        ensures { result ≡ class b };
}

// Whether every byte is of the class. It looks at all of them, without a way out, so that the compiler can test
// many at a step.
pub fn all_of<C: Class>(s: &[u8]) -> bool
    ensures { result ≡ every C.class s.now }
{
    s.iter().fold(true, |all, &b| all & C::contains(b))
}

// The offset of the first byte that is not of the class, or the length where there is none.
pub fn first_outside<C: Class>(s: &[u8]) -> usize
    ensures { result ≡ first_outside C.class s.now }
{
    let first = s.iter().position(|&b| !C::contains(b));
    first.unwrap_or(s.len())
}
