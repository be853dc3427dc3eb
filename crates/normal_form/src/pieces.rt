// The three stretches that make up a normal replacement, each as it lies in what was lent.
ghost use Rattle.std.specs.Prelude.{◌≡◌, ◌≤◌, length};
ghost use Rattle.stretch.specs.Three.{whole, whole_length};
ghost use Rattle.normal_form.specs.Stretches.{reference_before, replacement_kept, reference_after};
ghost use Rattle.normal_form.specs.Stretches.{Fits, Countable, joined, joined_length};

use super::Stretches;
use stretch::Three;

// Of the reference, what the form takes in before the start given.
pub fn reference_before(reference: &[u8], w: Stretches) -> &[u8]
    requires { (w.left ≤ w.given.start) × (w.given.start ≤ length reference.now) }
    ensures { result.now ≡ reference_before reference.now w }
{
    let from = w.left;
    let to = w.given.start;
    &reference[from..to]
}

// Of the replacement given, what is left of it in the form.
pub fn replacement_kept(replacement: &[u8], w: Stretches) -> &[u8]
    requires { (w.from ≤ w.to) × (w.to ≤ length replacement.now) }
    ensures { result.now ≡ replacement_kept replacement.now w }
{
    let from = w.from;
    let to = w.to;
    &replacement[from..to]
}

// Of the reference, what the form takes in after the end given.
pub fn reference_after(reference: &[u8], w: Stretches) -> &[u8]
    requires { (w.given.end ≤ w.right) × (w.right ≤ length reference.now) }
    ensures { result.now ≡ reference_after reference.now w }
{
    let from = w.given.end;
    let to = w.right;
    &reference[from..to]
}

// The three, as the one text that they make: the normal replacement.
pub fn joined_three<'a>(reference: &'a [u8], replacement: &'a [u8], w: Stretches) -> Three<'a>
    requires { Fits reference.now replacement.now w }
    ensures before { result.first.now ≡ reference_before reference.now w }
    ensures kept { result.middle.now ≡ replacement_kept replacement.now w }
    ensures after { result.last.now ≡ reference_after reference.now w }
    ensures text { whole result ≡ joined reference.now replacement.now w }
    ensures text_length { whole_length result ≡ joined_length w }
{
    Three {
        first: reference_before(reference, w),
        middle: replacement_kept(replacement, w),
        last: reference_after(reference, w),
    }
}

// How long the three are together.
pub fn joined_length(w: Stretches) -> usize
    requires { Countable w }
    ensures { result ≡ joined_length w }
{
    w.given.start - w.left + (w.to - w.from) + (w.right - w.given.end)
}
