// Identifiers of whole references, in buffers with and without room for them.
use printer::{Shown, written_text};
use std::io;

// A reference, and the place and the room of the identifier.
#[derive(Clone, Copy)]
struct Case(&'static [u8], u64, usize);

const CASES: &[Case] = &[
    Case(b"ACGT", 0, 41),
    Case(b"", 0, 41),
    Case(b"ACGT", 1, 42),
    Case(b"ACGT", 1, 41),
    Case(b"ACGT", 41, 41),
    Case(b"ACGT", 42, 41),
    Case(b"ACGT", u64::MAX, 41),
    Case(b"ACGT", 0, 40),
    Case(b"ACGT", 0, 0),
    Case(b"aCGT", 0, 0),
    Case(b"ACG@", 0, 41),
    Case(b"ACG[", 0, 41),
    Case(b"AZ", 0, 41),
    Case(b"A`Z", 5, 0),
    // A protein that ends in a stop; a stop alone, a gap alone, and both as ends; the bytes right beside them.
    Case(b"MKTAYIAKQR*", 0, 41),
    Case(b"*", 0, 41),
    Case(b"-", 0, 41),
    Case(b"*ACGT-", 0, 41),
    Case(b")ACG", 0, 41),
    Case(b"ACG+", 0, 41),
    Case(b"A,C", 0, 41),
    Case(b"ACG.", 0, 41),
];

fn line(rt: &impl Print, case: Case) -> io::Result<()> {
    let Case(reference, place, room) = case;
    let mut space = [0u8; 64];
    let room = room.min(64);
    let out = &mut space[..room];
    let answer = sequence_identifier::sequence_identifier(reference, out, place);
    let written = written_text(out, place, answer);
    let reference = Shown(reference);
    println!(rt; "identifier {reference} place {place} room {room} {written}")
}

pub fn lines(rt: &impl Print) -> io::Result<()> {
    for case in CASES {
        line(rt, *case)?;
    }
    Ok(())
}
