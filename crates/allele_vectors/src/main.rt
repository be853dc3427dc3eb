// Prints test vectors of alleles, a line each. They have to be those of the file stdout, which a second
// program makes, tests/second/allele_vectors.py.
#![tactic(auto)]

mod allele;
mod forms;
mod readings;
mod texts;

use std::io;

fn main(rt: HostRuntime) -> io::Result<()> {
    forms::lines(&rt)?;
    texts::lines(&rt)?;
    readings::lines(&rt)
}
