// Running digests that have taken a total: one more part, and the finish.
use printer::{Answer, Shown, Written};
use sha512::Running;
use std::io;

// A part, and the total before it.
#[derive(Clone, Copy)]
struct Part(&'static [u8], u64);

const PARTS: &[Part] = &[
    Part(b"", 1_000_000_000),
    Part(b"A", 999_999_999),
    Part(b"AC", 999_999_999),
    Part(b"", 1_000_000_001),
    Part(b"A", 1_000_000_001),
    Part(b"A", u64::MAX),
    Part(b"ACgT", 0),
    Part(b"ACgT", 999_999_996),
    Part(b"ACgT", 999_999_997),
    Part(b"gA", 5),
    Part(b"*-", 999_999_998),
    Part(b"*-", 999_999_999),
    Part(b"*-.", 5),
];

// A total, and the place and the room of the identifier.
#[derive(Clone, Copy)]
struct Finish(u64, u64, usize);

const FINISHES: &[Finish] = &[
    Finish(1_000_000_000, 0, 41),
    Finish(1_000_000_001, 0, 0),
    Finish(1_000_000_001, 0, 41),
    Finish(0, 0, 40),
    Finish(0, 1, 41),
    Finish(0, 42, 41),
    Finish(128, 3, 44),
    Finish(u64::MAX, 0, 41),
];

// Three parts, one after another.
const CUTS: &[[&[u8]; 3]] = &[
    [b"AC", b"GT", b""],
    [b"", b"ACGT", b""],
    [b"ACGT", b"", b""],
    [b"A", b"C", b"GT"],
    [b"AC", b"xx", b"GT"],
    // One sequence: cut between a stop and a gap, with a part refused there, and whole.
    [b"AC*", b"-GT", b""],
    [b"AC*", b"-+", b"-GT"],
    [b"", b"AC*-GT", b""],
];

fn at_total(total: u64) -> Running {
    Running {
        total,
        ..sequence_identifier::begin()
    }
}

fn part_line(rt: &impl Print, taken: Part) -> io::Result<()> {
    let Part(part, total) = taken;
    let mut state = at_total(total);
    let answer = Answer(sequence_identifier::feed(&mut state, part).map(|_| "taken"));
    let part = Shown(part);
    println!(rt; "part {part} total {total} {answer}")
}

fn finish_line(rt: &impl Print, finish: Finish) -> io::Result<()> {
    let Finish(total, place, room) = finish;
    let mut space = [0u8; 64];
    let room = room.min(64);
    let answer = sequence_identifier::finish(at_total(total), &mut space[..room], place);
    let written = Answer(answer.map(Written));
    println!(rt; "finish total {total} place {place} room {room} {written}")
}

// The state after three parts, each taken or refused.
fn after(parts: [&[u8]; 3]) -> Running {
    let mut state = sequence_identifier::begin();
    for part in parts {
        let _answer = sequence_identifier::feed(&mut state, part);
    }
    state
}

fn parts_line(rt: &impl Print, parts: [&[u8]; 3]) -> io::Result<()> {
    let mut space = [0u8; 41];
    let answer = sequence_identifier::finish(after(parts), &mut space, 0);
    let written = Answer(answer.map(Written));
    let identifier = Shown(&space);
    let [first, second, third] = parts.map(Shown);
    println!(rt; "parts {first} {second} {third} {written} {identifier}")
}

pub fn lines(rt: &impl Print) -> io::Result<()> {
    for part in PARTS {
        part_line(rt, *part)?;
    }
    for finish in FINISHES {
        finish_line(rt, *finish)?;
    }
    for parts in CUTS {
        parts_line(rt, *parts)?;
    }
    Ok(())
}
