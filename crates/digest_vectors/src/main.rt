// Prints test vectors of digests, a line each. They have to be those of the file stdout, which a second
// program makes, tests/second/digest_vectors.py, with digests and base64url that are not ours.
#![tactic(auto)]

mod digest_texts;
mod encodings;
mod identifiers;
mod lengths;
mod published;
mod running;

use std::io;

fn main(rt: HostRuntime) -> io::Result<()> {
    published::lines(&rt)?;
    lengths::lines(&rt)?;
    encodings::lines(&rt)?;
    identifiers::lines(&rt)?;
    running::lines(&rt)?;
    digest_texts::lines(&rt)
}
