// Normal forms: document 01's worked alleles, and each refusal that short slices can meet, at its
// boundary.
use crate::allele::{Allele, PROTEIN, WORKED};
use normal_form::Kind;
use normal_form_calls::Formed;
use printer::{Answer, Shown, part};
use std::{fmt, io};

// An allele, and the place and the room of the replacement.
#[derive(Clone, Copy)]
struct Case(Allele, u64, usize);

const CASES: &[Case] = &[
    // Cases 1 to 12, and two that widen on one side and shrink on the other.
    Case(Allele(WORKED, 4, 4, b"CAG"), 2, 16),
    Case(Allele(WORKED, 1, 2, b"CAGC"), 2, 16),
    Case(Allele(WORKED, 1, 4, b""), 2, 16),
    Case(Allele(WORKED, 2, 3, b"T"), 2, 16),
    Case(Allele(WORKED, 1, 5, b"CTGC"), 2, 16),
    Case(Allele(WORKED, 3, 5, b"TTT"), 2, 16),
    Case(Allele(WORKED, 0, 0, b"T"), 2, 16),
    Case(Allele(WORKED, 11, 11, b"A"), 2, 16),
    Case(Allele(WORKED, 0, 11, b""), 2, 16),
    Case(Allele(WORKED, 1, 4, b"CAG"), 2, 16),
    Case(Allele(WORKED, 2, 2, b""), 2, 16),
    Case(Allele(b"", 0, 0, b"ACGT"), 0, 16),
    Case(Allele(WORKED, 0, 4, b"TCAGCAG"), 2, 16),
    Case(Allele(WORKED, 4, 11, b"CAGCAGCAGT"), 2, 16),
    // Cases 13 and 14, and what is given out of order, past the end or foreign.
    Case(Allele(WORKED, 9, 4, b"A"), 2, 16),
    Case(Allele(WORKED, 4, 11, b"A"), 2, 16),
    Case(Allele(WORKED, 4, 12, b"A"), 2, 16),
    Case(Allele(WORKED, 12, 12, b"a"), 2, 16),
    Case(Allele(WORKED, u64::MAX, 11, b"A"), 2, 16),
    Case(Allele(WORKED, u64::MAX, u64::MAX, b"A"), 2, 16),
    Case(Allele(b"", 0, 1, b""), 0, 16),
    Case(Allele(WORKED, 4, 11, b"A["), 2, 16),
    Case(Allele(WORKED, 4, 11, b"@A"), 2, 16),
    Case(Allele(WORKED, 5, 4, b"@A"), 2, 16),
    // Case 15, and foreign bytes of the reference that come into the normal replacement, or do not.
    Case(Allele(b"TxxT", 1, 2, b""), 0, 16),
    Case(Allele(b"TAxAxAT", 2, 4, b""), 0, 16),
    Case(Allele(b"AxC", 1, 2, b""), 0, 16),
    Case(Allele(b"TxxT", 1, 3, b"A"), 0, 16),
    Case(Allele(b"TxxT", 1, 2, b""), 0, 0),
    // 12 bytes to be written, and none.
    Case(Allele(WORKED, 4, 4, b"CAG"), 4, 16),
    Case(Allele(WORKED, 4, 4, b"CAG"), 5, 16),
    Case(Allele(WORKED, 4, 4, b"CAG"), 0, 11),
    Case(Allele(WORKED, 4, 4, b"CAG"), u64::MAX, 16),
    Case(Allele(WORKED, 0, 11, b""), 16, 16),
    Case(Allele(WORKED, 0, 11, b""), 17, 16),
    Case(Allele(WORKED, 0, 11, b""), 0, 0),
    // A stop gained; the last one lost to a residue, and taken away; one put in on either side of it; a stop for the
    // last three residues, where only the two before it go; and a stop for itself.
    Case(Allele(PROTEIN, 8, 9, b"*"), 2, 16),
    Case(Allele(PROTEIN, 10, 11, b"W"), 2, 16),
    Case(Allele(PROTEIN, 10, 11, b""), 2, 16),
    Case(Allele(PROTEIN, 10, 10, b"*"), 2, 16),
    Case(Allele(PROTEIN, 11, 11, b"*"), 2, 16),
    Case(Allele(PROTEIN, 8, 11, b"*"), 2, 16),
    Case(Allele(PROTEIN, 10, 11, b"*"), 2, 16),
    // A gap put into a run of gaps, one taken out of it, and all of it taken out.
    Case(Allele(b"AC--GT", 3, 3, b"-"), 0, 16),
    Case(Allele(b"AC--GT", 2, 3, b""), 0, 16),
    Case(Allele(b"AC--GT", 2, 4, b""), 0, 16),
    // A stop alone and a gap alone: one more of it, and the other for it.
    Case(Allele(b"*", 0, 0, b"*"), 0, 16),
    Case(Allele(b"*", 0, 1, b"-"), 0, 16),
    Case(Allele(b"-", 1, 1, b"-"), 0, 16),
    Case(Allele(b"-", 0, 1, b"*"), 0, 16),
    // A stop and a gap at the ends of a reference, and of a replacement.
    Case(Allele(b"*ACGT-", 2, 4, b"-T*"), 0, 16),
    Case(Allele(b"-ACGT*", 2, 4, b"*T-"), 0, 16),
    Case(Allele(b"*ACGT-", 0, 0, b"*"), 0, 16),
    Case(Allele(b"*ACGT-", 6, 6, b"-"), 0, 16),
    // The bytes right beside the residues, behind a stop or a gap.
    Case(Allele(PROTEIN, 8, 9, b"*)"), 2, 16),
    Case(Allele(PROTEIN, 8, 9, b"*+"), 2, 16),
    Case(Allele(PROTEIN, 8, 9, b"-,"), 2, 16),
    Case(Allele(PROTEIN, 8, 9, b"-."), 2, 16),
    Case(Allele(PROTEIN, 8, 9, b"*-@"), 2, 16),
    Case(Allele(PROTEIN, 8, 9, b"-*["), 2, 16),
    // The same bytes in a reference, of which they come into the normal replacement. Residues may.
    Case(Allele(b"T*)*)T", 1, 3, b""), 0, 16),
    Case(Allele(b"T*+*+T", 1, 3, b""), 0, 16),
    Case(Allele(b"T-,-,T", 1, 3, b""), 0, 16),
    Case(Allele(b"T-.-.T", 1, 3, b""), 0, 16),
    Case(Allele(b"T*@*@T", 1, 3, b""), 0, 16),
    Case(Allele(b"T-[-[T", 1, 3, b""), 0, 16),
    Case(Allele(b"T++T", 1, 2, b""), 0, 16),
    Case(Allele(b"T*-*-T", 1, 3, b""), 0, 16),
];

// A form, and its replacement as it was written.
#[derive(Clone, Copy)]
struct Found<'a>(Formed, &'a [u8]);

fn kind_name(kind: Kind) -> &'static str {
    match kind {
        Kind::Unchanged => "unchanged",
        Kind::Substitution => "substitution",
        Kind::Indel => "indel",
    }
}

impl fmt::Display for Found<'_> {
    fn fmt<W: fmt::Write>(&self, f: &mut fmt::Formatter<W>) -> fmt::Result {
        let Formed { form, moved } = self.0;
        let start = form.start;
        let end = form.end;
        let kind = kind_name(form.kind);
        let replacement = Shown(self.1);
        write!(f, "formed {start} {end} {kind} {replacement} moved {moved}")
    }
}

fn line(rt: &impl Print, case: Case) -> io::Result<()> {
    let Case(allele, place, room) = case;
    let Allele(reference, start, end, replacement) = allele;
    let mut space = [0u8; 16];
    let room = room.min(16);
    let out = &mut space[..room];
    let answer = normal_form_calls::normal_form(reference, start, end, replacement, out, place);
    let found = answer.map(|formed| Found(formed, part(&space, place, formed.form.length)));
    let found = Answer(found);
    println!(rt; "normal-form {allele} place {place} room {room} {found}")
}

pub fn lines(rt: &impl Print) -> io::Result<()> {
    for case in CASES {
        line(rt, *case)?;
    }
    Ok(())
}
