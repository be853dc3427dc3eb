// The answers of the register's calls, flattened.
ghost use Rattle.std.specs.Prelude.{◌≡◌};
ghost use Rattle.c_answers.specs.Flat.{flat_outcome, flat_way, flat_entered, flat_undone};

use super::{FvEntered, FvOutcome, FvUndone};
use form_entry::{Entered, Way};
use moved::still;
use refusal::Refusal;

impl From<Result<(), Refusal>> for FvOutcome {
    ghost from_gives = { λ answer flat. flat ≡ flat_outcome answer };

    fn from(answer: Result<(), Refusal>) -> FvOutcome {
        match answer {
            Ok(()) => FvOutcome::default(),
            Err(refused) => FvOutcome {
                refusal: refused.reason.into(),
                value: refused.value,
            },
        }
    }
}

// C's number of how an allele was found. No `From`: neither type is of this crate.
fn flat_way(way: Way) -> u64
    ensures { result ≡ flat_way way }
{
    match way {
        Way::New => 1,
        Way::Again => 2,
        Way::Known => 3,
    }
}

impl From<Result<Entered, Refusal>> for FvEntered {
    ghost from_gives = { λ answer flat. flat ≡ flat_entered answer };

    fn from(answer: Result<Entered, Refusal>) -> FvEntered {
        match answer {
            Ok(entered) => FvEntered {
                refusal: 0,
                value: 0,
                answer: flat_way(entered.found),
                number: entered.number,
                moved: entered.moved,
            },
            Err(why) => FvEntered {
                refusal: why.reason.into(),
                value: why.value,
                answer: 0,
                number: 0,
                moved: still(),
            },
        }
    }
}

impl From<Result<u64, Refusal>> for FvUndone {
    ghost from_gives = { λ answer flat. flat ≡ flat_undone answer };

    fn from(answer: Result<u64, Refusal>) -> FvUndone {
        match answer {
            Ok(undone) => FvUndone {
                number: undone,
                ..FvUndone::default()
            },
            Err(why) => FvUndone {
                refusal: why.reason.into(),
                value: why.value,
                ..FvUndone::default()
            },
        }
    }
}
