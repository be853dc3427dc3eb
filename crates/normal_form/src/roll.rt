// How far the sequences before and after the change agree on either side of its spot. The flanks are
// lent as stretches of the reference. One function over `stretch::End` is no plainer than these two: `End`
// would need a third method, what is left of a stretch past so many bytes, with two bodies as long as theirs.
ghost use Rattle.std.specs.Prelude.{◌≡◌, ◌≤◌, length};
ghost use Rattle.normal_form.specs.Inner.{rolls_right, rolls_left};

use stretch::{common_prefix, common_suffix};

// How far the reference from start on agrees with the replacement and the reference from end on, where
// it agrees with `agreed` of the `given` residues of the replacement.
pub fn roll_right(onward: &[u8], given: usize, agreed: usize, after: &[u8]) -> usize
    requires { agreed ≤ length onward.now }
    ensures { result ≡ rolls_right onward.now given agreed after.now }
{
    if agreed < given {
        return agreed;
    }
    agreed + common_prefix(&onward[agreed..], after)
}

// How far, backwards, the reference up to end agrees with the reference up to start and the
// replacement, where it agrees with `agreed` of its `given` residues.
pub fn roll_left(back: &[u8], given: usize, agreed: usize, before: &[u8]) -> usize
    requires { agreed ≤ length back.now }
    ensures { result ≡ rolls_left back.now given agreed before.now }
{
    if agreed < given {
        return agreed;
    }
    agreed + common_suffix(&back[0..back.len() - agreed], before)
}
