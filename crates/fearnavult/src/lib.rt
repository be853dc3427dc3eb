// The C library: each public call as an exported function, flattened to C's shapes.
// include/fearnavult.h declares them.
//
// Crate `c_answers` has the flattening and what every export promises.
#![tactic(auto)]

ghost use Rattle.std.specs.Prelude.{◌≡◌};
ghost use Rattle.normal_form_calls.specs.Calls.{Normalises};
ghost use Rattle.text_reader.specs.Accepted.{ReadsLocation, ReadsAllele};
ghost use Rattle.vcf_line.specs.Calls.{counted};
ghost use Rattle.vcf_form.specs.Calls.{VcfForms};
ghost use Rattle.sha512.specs.Feeding.{begun};
ghost use Rattle.sequence_identifier.specs.Calls.{Identifies, Finishes};
ghost use Rattle.running_digest.specs.Calls.{Feeds};
ghost use Rattle.location_identifier.specs.Calls.{WritesLocation, IdentifiesLocation};
ghost use Rattle.allele_identifier.specs.Calls.{WritesAllele, IdentifiesAllele};
ghost use Rattle.entry.specs.Calls.{Enters};
ghost use Rattle.blank.specs.Calls.{Blanks};
ghost use Rattle.record_reader.specs.Calls.{checked, record_read};
ghost use Rattle.register.specs.Calls.{Withdraws, Undoes, Seals};
ghost use Rattle.c_answers.specs.Flat.{flat_written, flat_form, flat_location, flat_allele, flat_outcome, flat_entered};
ghost use Rattle.c_answers.specs.Flat.{flat_identified, flat_counted, flat_record, flat_undone, Flattened};

use blank::Capacities;
use c_answers::{
    FvAllele, FvCounted, FvEntered, FvForm, FvIdentified, FvLocation, FvOutcome, FvRecord,
    FvUndone, FvWritten,
};
use sha512::Running;

// As `sequence_identifier::sequence_identifier`.
#[unsafe(no_mangle)]
pub extern "C" fn fv_sequence_identifier(reference: &[u8], out: &mut [u8], place: u64) -> FvWritten
    ensures { Flattened flat_written
        (λ w. Identifies reference.now out.old place w out.new) result }
{
    sequence_identifier::sequence_identifier(reference, out, place).into()
}

// As `running_digest::begin`.
#[unsafe(no_mangle)]
pub extern "C" fn fv_running_begin() -> Running
    ensures { result ≡ begun }
{
    running_digest::begin()
}

// As `running_digest::feed`.
#[unsafe(no_mangle)]
pub extern "C" fn fv_running_feed(state: &mut Running, part: &[u8]) -> FvOutcome
    ensures { Flattened flat_outcome (λ a. Feeds state.old part.now a state.new) result }
{
    running_digest::feed(state, part).into()
}

// As `running_digest::finish`.
#[unsafe(no_mangle)]
pub extern "C" fn fv_running_finish(state: &Running, out: &mut [u8], place: u64) -> FvWritten
    ensures { Flattened flat_written (λ w. Finishes state.now out.old place w out.new) result }
{
    running_digest::finish(state, out, place).into()
}

// As `normal_form_calls::normal_form`.
#[unsafe(no_mangle)]
pub extern "C" fn fv_normal_form(
    reference: &[u8],
    start: u64,
    end: u64,
    replacement: &[u8],
    out: &mut [u8],
    place: u64,
) -> FvForm
    ensures { Flattened flat_form (λ a. Normalises reference.now start end replacement.now
        out.old place a out.new) result }
{
    normal_form_calls::normal_form(reference, start, end, replacement, out, place).into()
}

// As `vcf_line::vcf_count`.
#[unsafe(no_mangle)]
pub extern "C" fn fv_vcf_count(reference: &[u8], line: &[u8]) -> FvCounted
    ensures { Flattened flat_counted (λ a. a ≡ counted reference.now line.now) result }
{
    vcf_line::vcf_count(reference, line).into()
}

// As `vcf_form::vcf_form`.
#[unsafe(no_mangle)]
pub extern "C" fn fv_vcf_form(
    reference: &[u8],
    line: &[u8],
    alternate: u64,
    out: &mut [u8],
    place: u64,
) -> FvForm
    ensures { Flattened flat_form (λ a. VcfForms reference.now line.now alternate out.old
        place a out.new) result }
{
    vcf_form::vcf_form(reference, line, alternate, out, place).into()
}

// As `location_identifier::location_text`.
#[unsafe(no_mangle)]
pub extern "C" fn fv_location_text(
    residues: u64,
    start: u64,
    end: u64,
    digest: &[u8],
    out: &mut [u8],
    place: u64,
) -> FvWritten
    ensures { Flattened flat_written
        (λ w. WritesLocation residues start end digest.now out.old place w out.new)
        result }
{
    location_identifier::location_text(residues, start, end, digest, out, place).into()
}

// As `location_identifier::location_identifier`.
#[unsafe(no_mangle)]
pub extern "C" fn fv_location_identifier(
    residues: u64,
    start: u64,
    end: u64,
    digest: &[u8],
    out: &mut [u8],
    place: u64,
) -> FvWritten
    ensures { Flattened flat_written
        (λ w. IdentifiesLocation residues start end digest.now out.old place w
        out.new) result }
{
    location_identifier::location_identifier(residues, start, end, digest, out, place).into()
}

// As `allele_identifier::allele_text`.
#[unsafe(no_mangle)]
pub extern "C" fn fv_allele_text(
    reference: &[u8],
    start: u64,
    end: u64,
    replacement: &[u8],
    digest: &[u8],
    out: &mut [u8],
    place: u64,
) -> FvWritten
    ensures { Flattened flat_written
        (λ w. WritesAllele reference.now start end replacement.now digest.now
        out.old place w out.new) result }
{
    allele_identifier::allele_text(reference, start, end, replacement, digest, out, place).into()
}

// As `allele_identifier::allele_identifier`.
#[unsafe(no_mangle)]
pub extern "C" fn fv_allele_identifier(
    reference: &[u8],
    start: u64,
    end: u64,
    replacement: &[u8],
    digest: &[u8],
    out: &mut [u8],
    place: u64,
) -> FvIdentified
    ensures { Flattened flat_identified
        (λ w. IdentifiesAllele reference.now start end replacement.now digest.now
        out.old place w out.new) result }
{
    allele_identifier::allele_identifier(
        reference,
        start,
        end,
        replacement,
        digest,
        out,
        place,
    ).into()
}

// As `text_reader::read_location`.
#[unsafe(no_mangle)]
pub extern "C" fn fv_read_location(text: &[u8]) -> FvLocation
    ensures { Flattened flat_location (ReadsLocation text.now) result }
{
    text_reader::read_location(text).into()
}

// As `text_reader::read_allele`.
#[unsafe(no_mangle)]
pub extern "C" fn fv_read_allele(text: &[u8]) -> FvAllele
    ensures { Flattened flat_allele (ReadsAllele text.now) result }
{
    text_reader::read_allele(text).into()
}

// As `blank::blank`.
#[unsafe(no_mangle)]
pub extern "C" fn fv_blank(
    image: &mut [u8],
    residues: u64,
    digest: &[u8],
    records: u64,
    journal: u64,
    pool: u64,
) -> FvOutcome
    ensures { Flattened flat_outcome
        (λ a. Blanks image.old residues digest.now records journal pool a
        image.new) result }
{
    let capacities = Capacities {
        records,
        journal,
        pool,
    };
    blank::blank(image, residues, digest, capacities).into()
}

// As `entry::entry`.
#[unsafe(no_mangle)]
pub extern "C" fn fv_entry(
    image: &mut [u8],
    digest: &[u8],
    reference: &[u8],
    start: u64,
    end: u64,
    replacement: &[u8],
) -> FvEntered
    ensures { Flattened flat_entered
        (λ a. Enters image.old digest.now reference.now start end
        replacement.now a image.new) result }
{
    entry::entry(image, digest, reference, start, end, replacement).into()
}

// As `register::withdraw`.
#[unsafe(no_mangle)]
pub extern "C" fn fv_withdraw(image: &mut [u8], number: u64) -> FvOutcome
    ensures { Flattened flat_outcome (λ a. Withdraws image.old number a image.new) result }
{
    register::withdraw(image, number).into()
}

// As `register::undo`.
#[unsafe(no_mangle)]
pub extern "C" fn fv_undo(image: &mut [u8]) -> FvUndone
    ensures { Flattened flat_undone (λ a. Undoes image.old a image.new) result }
{
    register::undo(image).into()
}

// As `register::seal`.
#[unsafe(no_mangle)]
pub extern "C" fn fv_seal(image: &mut [u8]) -> FvOutcome
    ensures { Flattened flat_outcome (λ a. Seals image.old a image.new) result }
{
    register::seal(image).into()
}

// As `record_reader::check`.
#[unsafe(no_mangle)]
pub extern "C" fn fv_check(image: &[u8]) -> FvOutcome
    ensures { Flattened flat_outcome (λ a. a ≡ checked image.now) result }
{
    record_reader::check(image).into()
}

// As `record_reader::read_record`.
#[unsafe(no_mangle)]
pub extern "C" fn fv_read_record(image: &[u8], number: u64) -> FvRecord
    ensures { Flattened flat_record (λ a. a ≡ record_read image.now number) result }
{
    record_reader::read_record(image, number).into()
}
