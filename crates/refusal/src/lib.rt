// What a call answers when it turns its input away: document 01's number, by its reason, and value, with the
// limits by name. Every crate that refuses stands on this one.
//
// specs/Numbers.antt has document 01's numbers, specs/Verdict.antt the ordered grounds of a refusal and the
// verdict over them, and specs/Writes.antt what a call that writes promises.
#![tactic(auto)]

ghost use Rattle.std.specs.Prelude.{◌≡◌, ◌+◌, ltb, ◌++◌, Some, decimal, codes};
ghost use Rattle.refusal.specs.Numbers.{number_of};

use std::fmt;

// Why a call turns its input away, in the order of document 01's numbers.
#[derive(Clone, Copy, PartialEq, Eq, Debug)]
pub enum Reason {
    OverLimit,
    StartAboveEnd,
    EndAboveReference,
    ForeignByte,
    ForeignNormalByte,
    OutputTooShort,
    BadDigestText,
    TextNotAccepted,
    NoRoomForImage,
    ImageNotWellFormed,
    OtherReference,
    UnchangedAllele,
    NoFreeRecord,
    NoPoolRoom,
    NoJournalRoom,
    NoSuchNumber,
    NotActive,
    NothingToUndo,
    NoDataLine,
    RefDiffers,
    NoAlternate,
}

impl From<Reason> for u64 {
    ghost from_gives = { λ reason number. number ≡ number_of reason };

    fn from(reason: Reason) -> u64 {
        match reason {
            Reason::OverLimit => 1,
            Reason::StartAboveEnd => 2,
            Reason::EndAboveReference => 3,
            Reason::ForeignByte => 4,
            Reason::ForeignNormalByte => 5,
            Reason::OutputTooShort => 6,
            Reason::BadDigestText => 7,
            Reason::TextNotAccepted => 8,
            Reason::NoRoomForImage => 9,
            Reason::ImageNotWellFormed => 10,
            Reason::OtherReference => 11,
            Reason::UnchangedAllele => 12,
            Reason::NoFreeRecord => 13,
            Reason::NoPoolRoom => 14,
            Reason::NoJournalRoom => 15,
            Reason::NoSuchNumber => 16,
            Reason::NotActive => 17,
            Reason::NothingToUndo => 18,
            Reason::NoDataLine => 19,
            Reason::RefDiffers => 20,
            Reason::NoAlternate => 21,
        }
    }
}

#[derive(Clone, Copy, PartialEq, Eq, Debug)]
pub struct Refusal {
    pub reason: Reason,
    pub value: u64,
}

// The number and the value.
impl fmt::Display for Refusal {
    ghost output = { λ why. Some (decimal (number_of why.reason) ++ (codes " " ++ decimal why.value)) };

    fn fmt<W: fmt::Write>(&self, f: &mut fmt::Formatter<W>) -> fmt::Result {
        let number = u64::from(self.reason);
        let value = self.value;
        write!(f, "{number} {value}")
    }
}

pub const REFERENCE_LIMIT: u64 = 1_000_000_000;

pub const REPLACEMENT_LIMIT: u64 = 1_000_000;

pub const SEQUENCE_LIMIT: u64 = 1_001_000_000;

pub fn refuse(reason: Reason, value: u64) -> Refusal
    ensures { result ≡ record { reason = reason; value = value } }
{
    Refusal { reason, value }
}

// Whether a + b is above the limit. No sum is taken, so none can wrap.
pub fn sum_exceeds(a: u64, b: u64, limit: u64) -> bool
    ensures { result ≡ ltb limit (a + b) }
{
    if limit < a {
        return true;
    }
    limit - a < b
}
