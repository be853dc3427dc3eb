// What both texts are read by: the refusal of a text, and a part of it.
ghost use Rattle.std.specs.Prelude.{◌≡◌, ◌+◌, ◌≤◌, length, MatchResult, []};
ghost use Rattle.std.specs.Result.{ForOk};
ghost use Rattle.refusal.specs.declared.Reason.TheVariants.{TextNotAccepted};
ghost use Rattle.stretch.specs.Part.{part};

use refusal::{Reason, Refusal, refuse};
use words::Stopped;

pub fn refused(stopped: Stopped) -> Refusal
    ensures { result ≡ record { reason = TextNotAccepted; value = stopped.at } }
{
    refuse(Reason::TextNotAccepted, stopped.at as u64)
}

// Where a part of a text lies.
#[derive(Clone, Copy)]
pub struct Part {
    pub from: u64,
    pub length: u64,
}

// A part of a text, as it lies there. Of a text that is refused, the empty part at its start.
pub fn part_of(text: &[u8], read: Result<Part, Refusal>) -> &[u8]
    requires { ForOk read (λ p. p.from + p.length ≤ length text.now) }
    ensures { MatchResult read
        (λ p. result.now ≡ part text.now p.from (p.from + p.length))
        (λ _. result.now ≡ []) }
{
    match read {
        Ok(part) => {
            let start = part.from as usize;
            let end = start + part.length as usize;
            &text[start..end]
        }
        Err(_) => &text[0..0],
    }
}
