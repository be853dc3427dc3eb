// From line to line.
ghost use Rattle.lines.specs.Steps.{Read, Starts, Ready, Steps};

use super::Step;
use answer_line::answer;
use input_line::line_end;

// To the line after the reference.
pub fn first_step(input: &[u8]) -> Step
    requires { Read input.now }
    ensures { Starts input.now result }
{
    let reference = line_end(input, 0);
    Step {
        reference,
        next: reference + 1,
        written: 0,
    }
}

// Writes the answer of the line where `step` has come to at the front of `out`, and goes on to the next.
pub fn next_step(input: &[u8], step: Step, out: &mut [u8]) -> Step
    requires { Ready input.now step out.old }
    ensures { Steps input.now step out.old result out.new }
{
    let end = line_end(input, step.next);
    let written = answer(&input[0..step.reference], &input[step.next..end], out);
    Step {
        next: end + 1,
        written,
        ..step
    }
}
