// The answers of the calls that write, flattened.
ghost use Rattle.std.specs.Prelude.{◌≡◌};
ghost use Rattle.c_answers.specs.Flat.{flat_written, flat_identified, flat_kind, flat_form};

use super::{FvForm, FvIdentified, FvWritten};
use allele_identifier::Identified;
use moved::still;
use normal_form::Kind;
use normal_form_calls::Formed;
use refusal::Refusal;

impl From<Result<u64, Refusal>> for FvWritten {
    ghost from_gives = { λ answer flat. flat ≡ flat_written answer };

    fn from(answer: Result<u64, Refusal>) -> FvWritten {
        match answer {
            Ok(length) => FvWritten {
                length,
                ..FvWritten::default()
            },
            Err(refused) => FvWritten {
                refusal: refused.reason.into(),
                value: refused.value,
                ..FvWritten::default()
            },
        }
    }
}

impl From<Result<Identified, Refusal>> for FvIdentified {
    ghost from_gives = { λ answer flat. flat ≡ flat_identified answer };

    fn from(answer: Result<Identified, Refusal>) -> FvIdentified {
        match answer {
            Ok(identified) => FvIdentified {
                refusal: 0,
                value: 0,
                length: identified.length,
                moved: identified.moved,
            },
            Err(why) => FvIdentified {
                refusal: why.reason.into(),
                value: why.value,
                length: 0,
                moved: still(),
            },
        }
    }
}

// C's number of a kind. No `From`: neither type is of this crate.
fn flat_kind(k: Kind) -> u64
    ensures { result ≡ flat_kind k }
{
    match k {
        Kind::Unchanged => 0,
        Kind::Substitution => 1,
        Kind::Indel => 2,
    }
}

impl From<Result<Formed, Refusal>> for FvForm {
    ghost from_gives = { λ answer flat. flat ≡ flat_form answer };

    fn from(answer: Result<Formed, Refusal>) -> FvForm {
        match answer {
            Ok(formed) => FvForm {
                refusal: 0,
                value: 0,
                kind: flat_kind(formed.form.kind),
                start: formed.form.start,
                end: formed.form.end,
                length: formed.form.length,
                moved: formed.moved,
            },
            Err(why) => FvForm {
                refusal: why.reason.into(),
                value: why.value,
                kind: 0,
                start: 0,
                end: 0,
                length: 0,
                moved: still(),
            },
        }
    }
}
