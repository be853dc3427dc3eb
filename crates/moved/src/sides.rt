// Both intervals lie in the stretches.
ghost use Rattle.std.specs.Prelude.{◌≡◌};
ghost use Rattle.moved.specs.Moved.{side, moved_in, still as still_moved};

use super::{Moved, Side};
use normal_form::Stretches;

// How far `a` lies beyond `b`, and `b` beyond `a`.
fn side_of(a: usize, b: usize) -> Side
    ensures { result ≡ side a b }
{
    Side {
        widened: a.saturating_sub(b) as u64,
        shrunk: b.saturating_sub(a) as u64,
    }
}

// Nothing moved.
pub fn still() -> Moved
    ensures { result ≡ still_moved }
{
    Moved {
        left: Side {
            widened: 0,
            shrunk: 0,
        },
        right: Side {
            widened: 0,
            shrunk: 0,
        },
    }
}

// How far the form that the stretches hold moved.
pub fn moved_of(w: Stretches) -> Moved
    ensures { result ≡ moved_in w }
{
    let given = w.given;
    Moved {
        left: side_of(given.start, w.start),
        right: side_of(w.end, given.end),
    }
}
