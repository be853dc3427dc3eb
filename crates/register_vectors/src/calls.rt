// The calls as they are printed: each with its answer on a line, then the buffer, but for those that only read it.
use blank::Capacities;
use form_entry::{Entered, Way};
use image::Status;
use printer::{Answer, Hex, Shown, part};
use record_reader::{Record, read_record};
use refusal::Refusal;
use std::{fmt, io};

// No image takes all of the buffer; what stands after it is to stay.
const SIZE: usize = 160;

const ROW: usize = 16;

// What a register is of, and the capacities of its image.
#[derive(Clone, Copy)]
pub struct Setting {
    pub reference: &'static [u8],
    pub digest: &'static [u8],
    pub records: u64,
    pub journal: u64,
    pub pool: u64,
}

#[derive(Clone, Copy)]
pub enum Call {
    Enter(u64, u64, &'static [u8]),
    Withdraw(u64),
    Undo,
    Seal,
    Read(u64),
    Check,
    // No call: this byte of the buffer becomes that one.
    Change(usize, u8),
}

// How an allele was found.
#[derive(Clone, Copy)]
struct Found(Entered);

impl fmt::Display for Found {
    fn fmt<W: fmt::Write>(&self, f: &mut fmt::Formatter<W>) -> fmt::Result {
        let Entered {
            found,
            number,
            moved,
        } = self.0;
        let way = match found {
            Way::New => "new",
            Way::Again => "again",
            Way::Known => "known",
        };
        write!(f, "{way} {number} moved {moved}")
    }
}

// What stands under a number, and the replacement.
#[derive(Clone, Copy)]
struct Under<'a>(Record, &'a [u8]);

impl fmt::Display for Under<'_> {
    fn fmt<W: fmt::Write>(&self, f: &mut fmt::Formatter<W>) -> fmt::Result {
        let Record {
            start,
            end,
            status,
            offset,
            length,
        } = self.0;
        let status = match status {
            Status::Active => "active",
            Status::Inactive => "inactive",
        };
        let replacement = Shown(self.1);
        write!(
            f,
            "{status} {start} {end} at {offset} {length} {replacement}"
        )
    }
}

fn done(answer: Result<(), Refusal>) -> Answer<&'static str> {
    Answer(answer.map(|_| "done"))
}

// The bytes that a call has left.
fn left(rt: &impl Print, image: &[u8]) -> io::Result<()> {
    for row in image.chunks(ROW) {
        let row = Hex(row);
        println!(rt; "{row}")?;
    }
    Ok(())
}

fn blank(rt: &impl Print, image: &mut [u8], setting: Setting) -> io::Result<()> {
    let Setting {
        reference,
        digest,
        records,
        journal,
        pool,
    } = setting;
    let residues = reference.len() as u64;
    let capacities = Capacities {
        records,
        journal,
        pool,
    };
    let answer = done(blank::blank(image, residues, digest, capacities));
    let digest = Shown(digest);
    println!(rt; "blank {residues} {digest} {records} {journal} {pool} {answer}")?;
    left(rt, image)
}

fn enter(
    rt: &impl Print,
    image: &mut [u8],
    setting: Setting,
    start: u64,
    end: u64,
    replacement: &[u8],
) -> io::Result<()> {
    let answer = entry::entry(
        image,
        setting.digest,
        setting.reference,
        start,
        end,
        replacement,
    );
    let answer = Answer(answer.map(Found));
    let replacement = Shown(replacement);
    println!(rt; "entry {start} {end} {replacement} {answer}")?;
    left(rt, image)
}

fn withdraw(rt: &impl Print, image: &mut [u8], number: u64) -> io::Result<()> {
    let answer = done(register::withdraw(image, number));
    println!(rt; "withdraw {number} {answer}")?;
    left(rt, image)
}

fn undo(rt: &impl Print, image: &mut [u8]) -> io::Result<()> {
    let answer = Answer(register::undo(image));
    println!(rt; "undo {answer}")?;
    left(rt, image)
}

fn seal(rt: &impl Print, image: &mut [u8]) -> io::Result<()> {
    let answer = done(register::seal(image));
    println!(rt; "seal {answer}")?;
    left(rt, image)
}

fn read(rt: &impl Print, image: &[u8], number: u64) -> io::Result<()> {
    let answer = read_record(image, number);
    let answer = Answer(answer.map(|record| Under(
        record,
        part(image, record.offset, record.length),
    )));
    println!(rt; "record {number} {answer}")
}

fn check(rt: &impl Print, image: &[u8]) -> io::Result<()> {
    let answer = done(record_reader::check(image));
    println!(rt; "check {answer}")
}

fn change(rt: &impl Print, image: &mut [u8], at: usize, byte: u8) -> io::Result<()> {
    if let Some(changed) = image.get_mut(at) {
        *changed = byte;
    }
    println!(rt; "byte {at} set to {byte}")?;
    left(rt, image)
}

fn answered(rt: &impl Print, image: &mut [u8], setting: Setting, call: Call) -> io::Result<()> {
    match call {
        Call::Enter(start, end, replacement) => enter(rt, image, setting, start, end, replacement),
        Call::Withdraw(number) => withdraw(rt, image, number),
        Call::Undo => undo(rt, image),
        Call::Seal => seal(rt, image),
        Call::Read(number) => read(rt, image, number),
        Call::Check => check(rt, image),
        Call::Change(at, byte) => change(rt, image, at, byte),
    }
}

// A blank image, and the calls on it, one after another.
pub fn lines(rt: &impl Print, setting: Setting, calls: &[Call]) -> io::Result<()> {
    let mut image = [0xAAu8; SIZE];
    blank(rt, &mut image, setting)?;
    for call in calls {
        answered(rt, &mut image, setting, *call)?;
    }
    Ok(())
}
