// Texts and identifiers: of the locations and alleles that source document 001 publishes, and of
// alleles of document 01; and what reading each text answers.
use crate::allele::{Allele, PROTEIN, WORKED};
use crate::readings;
use allele_identifier::Identified;
use moved::Moved;
use printer::{Answer, Shown, WrittenText, part, written_text};
use refusal::REFERENCE_LIMIT;
use std::{fmt, io};

// Room for the text and for the identifier of every line.
const ROOM: usize = 160;

// The start and the end of an interval, and the digest of the sequence. That is not at hand, so it is said to be as
// long as one may be.
#[derive(Clone, Copy)]
struct Location(u64, u64, &'static [u8]);

// rs7412 and rs429358 on chromosome 19, and one on chromosome 13.
const LOCATIONS: &[Location] = &[
    Location(44_908_821, 44_908_822, b"IIB53T8CNeJJdUqzn9V_JnRtQadwWCbl"),
    Location(44_908_683, 44_908_684, b"IIB53T8CNeJJdUqzn9V_JnRtQadwWCbl"),
    Location(32_936_731, 32_936_732, b"_0wi-qoDrvram155UmcSC-zA5ZK4fpLT"),
];

// The digest of a location, and a replacement.
#[derive(Clone, Copy)]
struct Laid([u8; 32], [u8; 1]);

const LAID: &[Laid] = &[
    Laid(*b"u5fspwVbQ79QkX6GHLF8tXPCAXFJqRPx", *b"C"),
    Laid(*b"u5fspwVbQ79QkX6GHLF8tXPCAXFJqRPx", *b"T"),
    Laid(*b"emmUme_DvPnWg476971oqQpVPXkQU9YF", *b"T"),
    Laid(*b"emmUme_DvPnWg476971oqQpVPXkQU9YF", *b"C"),
    Laid(*b"v9K0mcjQVugxTDIcdi7GBJ_R6fZ1lsYq", *b"C"),
];

const WORKED_DIGEST: &[u8] = b"zR7HujP8jYfpROv-hBLZMHuR_5P4Zo0q";

const PROTEIN_DIGEST: &[u8] = b"Ks2I1vzJHEaa_cdLtFSYxWKc3rO1l8Af";

// An allele, and the digest of its reference.
#[derive(Clone, Copy)]
struct Digested(Allele, &'static [u8]);

const ALLELES: &[Digested] = &[
    // Cases 1, 4 and 10.
    Digested(Allele(WORKED, 4, 4, b"CAG"), WORKED_DIGEST),
    Digested(Allele(WORKED, 2, 3, b"T"), WORKED_DIGEST),
    Digested(Allele(WORKED, 1, 4, b"CAG"), WORKED_DIGEST),
    // A stop gained, one put in beside the last one, and a gap put into a run of gaps.
    Digested(Allele(PROTEIN, 8, 9, b"*"), PROTEIN_DIGEST),
    Digested(Allele(PROTEIN, 11, 11, b"*"), PROTEIN_DIGEST),
    Digested(
        Allele(b"AC--GT", 3, 3, b"-"),
        b"7LhR7N2B4jmmnlTP1hixQpnEvB1VYHJ0",
    ),
];

impl fmt::Display for Location {
    fn fmt<W: fmt::Write>(&self, f: &mut fmt::Formatter<W>) -> fmt::Result {
        let Location(start, end, digest) = *self;
        let digest = Shown(digest);
        write!(f, "{REFERENCE_LIMIT} {start} {end} {digest}")
    }
}

impl fmt::Display for Digested {
    fn fmt<W: fmt::Write>(&self, f: &mut fmt::Formatter<W>) -> fmt::Result {
        let Digested(allele, digest) = *self;
        let digest = Shown(digest);
        write!(f, "{allele} {digest}")
    }
}

// An identifier, and how far the normal form moved.
#[derive(Clone, Copy)]
struct Identifier<'a>(WrittenText<'a>, Moved);

impl fmt::Display for Identifier<'_> {
    fn fmt<W: fmt::Write>(&self, f: &mut fmt::Formatter<W>) -> fmt::Result {
        let Identifier(written, moved) = *self;
        write!(f, "{written} moved {moved}")
    }
}

fn written_identifier(out: &[u8], identified: Identified) -> Identifier<'_> {
    let Identified { length, moved } = identified;
    Identifier(WrittenText(length, part(out, 0, length)), moved)
}

fn location_text_line(rt: &impl Print, location: Location) -> io::Result<()> {
    let Location(start, end, digest) = location;
    let mut space = [0u8; ROOM];
    let answer = location_identifier::location_text(
        REFERENCE_LIMIT,
        start,
        end,
        digest,
        &mut space,
        0,
    );
    let written = written_text(&space, 0, answer);
    let read = readings::location(part(&space, 0, answer.unwrap_or(0)));
    println!(rt; "location-text {location} {written} {read}")
}

fn location_identifier_line(rt: &impl Print, location: Location) -> io::Result<()> {
    let Location(start, end, digest) = location;
    let mut space = [0u8; ROOM];
    let answer = location_identifier::location_identifier(
        REFERENCE_LIMIT,
        start,
        end,
        digest,
        &mut space,
        0,
    );
    let written = written_text(&space, 0, answer);
    println!(rt; "location-identifier {location} {written}")
}

// Without the sequence, an allele text is laid out from the location's digest and the replacement.
fn laid_lines(rt: &impl Print, laid: Laid) -> io::Result<()> {
    let Laid(location, replacement) = laid;
    let mut space = [0u8; ROOM];
    let text = readings::laid(&mut space, &location, &replacement);
    let read = readings::allele(text);
    let hash = sha512::of_message(text);
    let mut room = [0u8; ROOM];
    let count = digest_text::place_identifier(&mut room, 0, b"ga4gh:VA.", &hash);
    let identifier = WrittenText(count, part(&room, 0, count));
    let text = WrittenText(text.len() as u64, text);
    let location = Shown(&location);
    let replacement = Shown(&replacement);
    println!(rt; "laid-allele {location} {replacement} {text} {read}")?;
    println!(rt; "laid-allele-identifier {location} {replacement} {identifier}")
}

fn allele_text_line(rt: &impl Print, digested: Digested) -> io::Result<()> {
    let Digested(allele, digest) = digested;
    let Allele(reference, start, end, replacement) = allele;
    let mut space = [0u8; ROOM];
    let answer = allele_identifier::allele_text(
        reference,
        start,
        end,
        replacement,
        digest,
        &mut space,
        0,
    );
    let written = written_text(&space, 0, answer);
    let read = readings::allele(part(&space, 0, answer.unwrap_or(0)));
    println!(rt; "allele-text {digested} {written} {read}")
}

fn allele_identifier_line(rt: &impl Print, digested: Digested) -> io::Result<()> {
    let Digested(allele, digest) = digested;
    let Allele(reference, start, end, replacement) = allele;
    let mut space = [0u8; ROOM];
    let answer = allele_identifier::allele_identifier(
        reference,
        start,
        end,
        replacement,
        digest,
        &mut space,
        0,
    );
    let identifier = Answer(answer.map(|identified| written_identifier(&space, identified)));
    println!(rt; "allele-identifier {digested} {identifier}")
}

pub fn lines(rt: &impl Print) -> io::Result<()> {
    for location in LOCATIONS {
        location_text_line(rt, *location)?;
        location_identifier_line(rt, *location)?;
    }
    for laid in LAID {
        laid_lines(rt, *laid)?;
    }
    for digested in ALLELES {
        allele_text_line(rt, *digested)?;
        allele_identifier_line(rt, *digested)?;
    }
    Ok(())
}
