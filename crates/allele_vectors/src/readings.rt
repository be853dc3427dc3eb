// Texts read: what reading one answers, and texts that are refused, at each part.
ghost use Rattle.std.specs.Prelude.{◌+◌, ◌≤◌, length};
ghost use Rattle.text.specs.Layout.{allele_words};

use printer::{Answer, Shown, part};
use std::{fmt, io};
use stretch::Three;
use text_reader::LocationParts;

const LOCATIONS: &[&[u8]] = &[
    // Nothing; a text cut off; a digit after a first 0; an end over the limit; two starts above the end.
    b"",
    b"{\"interval\":{\"end\":10,\"sta",
    b"{\"interval\":{\"end\":00,",
    b"{\"interval\":{\"end\":1000000001,",
    b"{\"interval\":{\"end\":5,\"start\":50,",
    b"{\"interval\":{\"end\":5,\"start\":6,",
    // A digest of 33 characters; a byte after the text.
    b"{\"interval\":{\"end\":10,\"start\":1,\"type\":\"SimpleInterval\"},\"sequence_id\":\"aKF498dAxcJAqme6QYQ7EZ07-fiw8Kw2A\",\"type\":\"SequenceLocation\"}",
    b"{\"interval\":{\"end\":10,\"start\":1,\"type\":\"SimpleInterval\"},\"sequence_id\":\"aKF498dAxcJAqme6QYQ7EZ07-fiw8Kw2\",\"type\":\"SequenceLocation\"}}",
];

// A digest of 31 characters; a foreign letter; a byte too few, and one too many.
const ALLELES: &[&[u8]] = &[
    b"{\"location\":\"aKF498dAxcJAqme6QYQ7EZ07-fiw8Kw\",\"state\":{\"sequence\":\"\",\"type\":\"SequenceState\"},\"type\":\"Allele\"}",
    b"{\"location\":\"aKF498dAxcJAqme6QYQ7EZ07-fiw8Kw2\",\"state\":{\"sequence\":\"CAg\",\"type\":\"SequenceState\"},\"type\":\"Allele\"}",
    b"{\"location\":\"aKF498dAxcJAqme6QYQ7EZ07-fiw8Kw2\",\"state\":{\"sequence\":\"CAG\",\"type\":\"SequenceState\"},\"type\":\"Allele\"",
    b"{\"location\":\"aKF498dAxcJAqme6QYQ7EZ07-fiw8Kw2\",\"state\":{\"sequence\":\"CAG\",\"type\":\"SequenceState\"},\"type\":\"Allele\"}}",
];

// A stop behind the sequence.
const STOP_BEHIND: &[u8] =
    b"{\"location\":\"aKF498dAxcJAqme6QYQ7EZ07-fiw8Kw2\",\"state\":{\"sequence\":\"CAG\"*,\"type\":\"SequenceState\"},\"type\":\"Allele\"}";

// Sequences of an allele text, residues or not, of which none is longer than that.
const LONGEST: usize = 16;

const SEQUENCES: &[&[u8]] = &[
    // A stop and a gap at the ends of a sequence, and alone.
    b"*CAG-", b"-CAG*", b"*", b"-",
    // The bytes right beside a stop and a gap.
    b")AG", b"*+", b"C,G", b"CA-.",
];

// What a location text is read as, and its digest.
#[derive(Clone, Copy)]
pub struct LocationRead<'a>(LocationParts, &'a [u8]);

impl fmt::Display for LocationRead<'_> {
    fn fmt<W: fmt::Write>(&self, f: &mut fmt::Formatter<W>) -> fmt::Result {
        let LocationParts { start, end, .. } = self.0;
        let digest = Shown(self.1);
        write!(f, "read {start} {end} {digest}")
    }
}

// The digest and the sequence of an allele text.
#[derive(Clone, Copy)]
pub struct AlleleRead<'a>(&'a [u8], &'a [u8]);

impl fmt::Display for AlleleRead<'_> {
    fn fmt<W: fmt::Write>(&self, f: &mut fmt::Formatter<W>) -> fmt::Result {
        let location = Shown(self.0);
        let sequence = Shown(self.1);
        write!(f, "read {location} {sequence}")
    }
}

pub fn location(text: &[u8]) -> Answer<LocationRead<'_>> {
    let answer = text_reader::read_location(text);
    Answer(answer.map(|parts| LocationRead(parts, text_reader::digest_of(text))))
}

pub fn allele(text: &[u8]) -> Answer<AlleleRead<'_>> {
    let answer = text_reader::read_allele(text);
    Answer(answer.map(|_| AlleleRead(
        text_reader::location_of(text),
        text_reader::sequence_of(text),
    )))
}

// The allele text of a location's digest and a sequence, residues or not.
pub fn laid<'a>(space: &'a mut [u8; 160], location: &[u8], sequence: &[u8]) -> &'a [u8]
    requires { length location.now + (length sequence.now + allele_words) ≤ 160 }
{
    let sequence = Three {
        first: sequence,
        middle: b"",
        last: b"",
    };
    let count = text::write_allele(space, location, sequence);
    part(space, 0, count as u64)
}

fn location_line(rt: &impl Print, text: &[u8]) -> io::Result<()> {
    let answer = location(text);
    let text = Shown(text);
    println!(rt; "read-location {text} {answer}")
}

fn allele_line(rt: &impl Print, text: &[u8]) -> io::Result<()> {
    let answer = allele(text);
    let text = Shown(text);
    println!(rt; "read-allele {text} {answer}")
}

fn sequence_line(rt: &impl Print, sequence: &[u8]) -> io::Result<()> {
    let mut space = [0u8; 160];
    let sequence = &sequence[..sequence.len().min(LONGEST)];
    let text = laid(&mut space, b"aKF498dAxcJAqme6QYQ7EZ07-fiw8Kw2", sequence);
    allele_line(rt, text)
}

pub fn lines(rt: &impl Print) -> io::Result<()> {
    for text in LOCATIONS {
        location_line(rt, text)?;
    }
    for text in ALLELES {
        allele_line(rt, text)?;
    }
    for sequence in SEQUENCES {
        sequence_line(rt, sequence)?;
    }
    allele_line(rt, STOP_BEHIND)
}
