// Where a byte stands.
ghost use Rattle.std.specs.Prelude.{◌≡◌};
ghost use Rattle.fields.specs.Cut.{next_of};

// The first place at or after `from` where `s` has `byte`, or its length where there is none; `from`
// itself where that is past the end.
pub fn next(s: &[u8], from: usize, byte: u8) -> usize
    ensures { result ≡ next_of byte s.now from }
{
    // A `while`, for the measure that the wrong version `no_end` breaks. With `position` of the tail, where a line is cut
    // at mark after mark, the compiler also steps ten counts a byte.
    let mut i = from;
    while i < s.len() {
        if s[i] == byte {
            return i;
        }
        i += 1;
    }
    i
}
