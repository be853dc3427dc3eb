// Prints what registers answer: each call with its answer on a line, then the buffer. It has to be what the file stdout
// holds, which a second program makes, tests/second/register_vectors.py.
#![tactic(auto)]

mod calls;
mod protein;
mod worked;

use std::io;

fn main(rt: HostRuntime) -> io::Result<()> {
    calls::lines(&rt, worked::SETTING, worked::CALLS)?;
    calls::lines(&rt, protein::SETTING, protein::CALLS)
}
