// The parts of a line of test vectors, as they are printed, for the programs that print them: `digest_vectors`,
// `allele_vectors` and `register_vectors`.
#![tactic(auto)]

ghost use Rattle.std.specs.Prelude.{◌≡◌, take, drop};

use refusal::Refusal;
use std::fmt;

// A text; an empty one shows as a point.
#[derive(Clone, Copy)]
pub struct Shown<'a>(pub &'a [u8]);

impl fmt::Display for Shown<'_> {
    fn fmt<W: fmt::Write>(&self, f: &mut fmt::Formatter<W>) -> fmt::Result {
        if self.0.is_empty() {
            return f.write_str(".");
        }
        for b in self.0 {
            f.write_char(char::from(*b))?;
        }
        Ok(())
    }
}

// Bytes, each as two digits.
#[derive(Clone, Copy)]
pub struct Hex<'a>(pub &'a [u8]);

impl fmt::Display for Hex<'_> {
    fn fmt<W: fmt::Write>(&self, f: &mut fmt::Formatter<W>) -> fmt::Result {
        for b in self.0 {
            write!(f, "{b:02x}")?;
        }
        Ok(())
    }
}

// What a call answers, or the refusal.
#[derive(Clone, Copy)]
pub struct Answer<T>(pub Result<T, Refusal>);

impl<T: fmt::Display + Drop> fmt::Display for Answer<T> {
    fn fmt<W: fmt::Write>(&self, f: &mut fmt::Formatter<W>) -> fmt::Result {
        match &self.0 {
            Ok(answer) => write!(f, "{answer}"),
            Err(why) => write!(f, "refused {why}"),
        }
    }
}

// How many bytes a call says it wrote.
#[derive(Clone, Copy)]
pub struct Written(pub u64);

impl fmt::Display for Written {
    fn fmt<W: fmt::Write>(&self, f: &mut fmt::Formatter<W>) -> fmt::Result {
        let count = self.0;
        write!(f, "written {count}")
    }
}

// So many bytes of `out` from `place` on, as far as it goes.
pub fn part(out: &[u8], place: u64, count: u64) -> &[u8]
    ensures { result.now ≡ take count (drop place out.now) }
{
    let from = place.min(out.len() as u64) as usize;
    let rest = &out[from..];
    let kept = count.min(rest.len() as u64) as usize;
    &rest[..kept]
}

// How many bytes a call says it wrote, and which.
#[derive(Clone, Copy)]
pub struct WrittenText<'a>(pub u64, pub &'a [u8]);

impl fmt::Display for WrittenText<'_> {
    fn fmt<W: fmt::Write>(&self, f: &mut fmt::Formatter<W>) -> fmt::Result {
        let count = Written(self.0);
        let text = Shown(self.1);
        write!(f, "{count} {text}")
    }
}

// What a call answers that writes into `out` from `place` on.
pub fn written_text(
    out: &[u8],
    place: u64,
    answer: Result<u64, Refusal>,
) -> Answer<WrittenText<'_>> {
    Answer(answer.map(|count| WrittenText(count, part(out, place, count))))
}
