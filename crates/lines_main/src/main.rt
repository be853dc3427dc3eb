// Reads a reference and alleles from standard input, and prints the normal form of each allele and how far
// it moved (document 01, "The line program"; document 02, Q-5).
#![tactic(auto)]

ghost use Rattle.std.specs.Prelude.{◌≤◌, length, IfOk};
ghost use Rattle.lines.specs.Steps.{Enough};

use lines::{INPUT_LIMIT, ROOM, first_step, next_step};
use std::io;
use std::io::{Read, Write};

// Prints what each step writes, while some of the input is left.
fn print_answers(rt: &impl Print, input: &[u8], out: &mut [u8]) -> io::Result<()>
    requires { Enough input.now out.old }
{
    // No iterator: each step writes into the lent buffer, and is printed before the next one does.
    let mut step = first_step(input);
    while step.next < input.len() {
        step = next_step(input, step, out);
        io::writer(rt).write_all(&out[0..step.written])?;
    }
    Ok(())
}

// Reads until `input` is full or no more comes, and returns how many bytes stand at its front.
fn read_full<R: Read>(from: &mut R, input: &mut [u8]) -> io::Result<usize>
    ensures { IfOk result (λ count. count ≤ length input.new) }
{
    // No `read_to_end`: it reads into a `Vec`, and there is no heap.
    let mut count = 0;
    while count < input.len() {
        let more = from.read(&mut input[count..])?;
        if more == 0 {
            break;
        }
        count += more;
    }
    Ok(count)
}

fn main(rt: HostRuntime) -> io::Result<()> {
    let mut input = [0u8; INPUT_LIMIT];
    let count = read_full(&mut rt.reader(), &mut input)?;
    let mut out = [0u8; ROOM];
    print_answers(&rt, &input[0..count], &mut out)
}
