// The normal form of an allele that has passed its tests. It looks at what is trimmed and rolled, and
// at nothing else of the reference. What hands stretches on is laid into its callers.
ghost use Rattle.std.specs.Prelude.{◌≡◌, ◌-◌, ◌≤◌, length, map};
ghost use Rattle.normal_form.specs.Form.{Allele};
ghost use Rattle.normal_form.specs.Stretches.{spread, as_given, stretches_of};
ghost use Rattle.normal_form.specs.Inner.{Agrees, agreed_outline, agreed_stretches};

use super::lengths::outline_of;
use super::roll::{roll_left, roll_right};
use super::{Interval, Kind, Outline, Stretches};
use stretch::{AsGiven, Back, Front, Reading, agreed};

// The stretches of a normal form of that outline, on a reference of n residues.
fn lay(outline: Outline, n: usize, given: usize, start: usize, end: usize) -> Stretches
    requires { (outline.b ≤ n) × (end ≤ n) × (outline.b - (n - end) ≤ given) }
    ensures { result ≡ spread outline n given start end }
{
    let kind = outline.kind;
    let a = outline.a;
    let b = outline.b;
    Stretches {
        kind,
        start: a,
        end: n - b,
        given: Interval { start, end },
        left: a.min(start),
        from: a.saturating_sub(start),
        to: given - b.saturating_sub(n - end),
        right: (n - b).max(end),
    }
}

fn as_given(start: usize, end: usize, given: usize) -> Stretches
    ensures { result ≡ as_given start end given }
{
    Stretches {
        kind: Kind::Unchanged,
        start,
        end,
        given: Interval { start, end },
        left: start,
        from: 0,
        to: given,
        right: end,
    }
}

// Trims and rolls a change.
fn justify(
    reference: &[u8],
    start: usize,
    end: usize,
    given: usize,
    ahead: usize,
    behind: usize,
) -> Stretches
    requires { Agrees (length reference.now) start end given ahead behind }
    ensures { result ≡ spread (agreed_outline reference.now start end given ahead behind)
        (length reference.now) given start end }
{
    let n = reference.len();
    let after = n - end;
    let p = start + roll_right(&reference[start..], given, ahead, &reference[end..]);
    let q = after + roll_left(&reference[0..end], given, behind, &reference[0..start]);
    lay(
        outline_of(n, start + given + after, p, q),
        n,
        given,
        start,
        end,
    )
}

// The normal form of an allele by how far its replacement, of `given` residues, agrees with the
// reference: `ahead` of them from start on, and `behind` of them backwards from end on. An unchanged one
// is answered as given.
#[inline(always)]
pub fn form_by_agreement(
    reference: &[u8],
    start: usize,
    end: usize,
    given: usize,
    ahead: usize,
    behind: usize,
) -> Stretches
    requires { Agrees (length reference.now) start end given ahead behind }
    ensures { result ≡ agreed_stretches reference.now start end given ahead behind }
{
    if given == end - start && ahead == given {
        return as_given(start, end, given);
    }
    justify(reference, start, end, given, ahead, behind)
}

// The normal form of an allele whose replacement is read so.
#[inline(always)]
pub fn normalise_read<R: Reading>(
    reference: &[u8],
    start: usize,
    end: usize,
    replacement: &[u8],
) -> Stretches
    requires { Allele reference.now start end (map R.reads replacement.now) }
    ensures { result ≡ stretches_of reference.now start end (map R.reads replacement.now) }
{
    let ahead = agreed::<Front, R>(&reference[start..], replacement);
    let behind = agreed::<Back, R>(&reference[0..end], replacement);
    form_by_agreement(reference, start, end, replacement.len(), ahead, behind)
}

// The normal form of an allele.
#[inline(always)]
pub fn normalise(reference: &[u8], start: usize, end: usize, replacement: &[u8]) -> Stretches
    requires { Allele reference.now start end replacement.now }
    ensures { result ≡ stretches_of reference.now start end replacement.now }
{
    normalise_read::<AsGiven>(reference, start, end, replacement)
}
