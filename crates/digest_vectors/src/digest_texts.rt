// Digest texts: of 32 base64url characters, of other lengths, with other characters.
use printer::{Answer, Shown};
use std::io;

const DIGESTS: &[&[u8]] = &[
    b"aKF498dAxcJAqme6QYQ7EZ07-fiw8Kw2",
    b"aKF498dAxcJAqme6QYQ7EZ07-fiw8Kw",
    b"aKF498dAxcJAqme6QYQ7EZ07-fiw8Kw2A",
    b"",
    b"+KF498dAxcJAqme6QYQ7EZ07-fiw8Kw2",
    b"aKF498dAxcJAqme6QYQ7EZ07-fiw8Kw/",
    b"aKF49=dAxcJAqme6QYQ7EZ07-fiw8Kw@",
    b"________________________________",
    b"[[[[[[[[[[[[[[[[[[[[[[[[[[[[[[[[",
    b"ga4gh:SQ.aKF498dAxcJAqme6QYQ7EZ07-fiw8Kw2",
    // Characters that stand right beside the alphabet's ranges.
    b"aKF498dAxcJAqme6QYQ7EZ07-fiw8Kw{",
    b":KF498dAxcJAqme6QYQ7EZ07-fiw8Kw2",
    b"aKF498dAxcJAqme6`YQ7EZ07-fiw8Kw2",
];

fn line(rt: &impl Print, digest: &[u8]) -> io::Result<()> {
    let answer = Answer(alphabets::check_digest_text(digest).map(|_| "taken"));
    let digest = Shown(digest);
    println!(rt; "digest-text {digest} {answer}")
}

pub fn lines(rt: &impl Print) -> io::Result<()> {
    for digest in DIGESTS {
        line(rt, digest)?;
    }
    Ok(())
}
