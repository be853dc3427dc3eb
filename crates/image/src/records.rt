// The records of an image, where its header is as it should be.
ghost use Rattle.std.specs.Prelude.{◌≡◌, false, cond, [], ◌∷◌, ◌+◌, ◌^◌, ◌<◌, ◌≤◌, leb, eqb};
ghost use Rattle.stretch.specs.Below.{below};
ghost use Rattle.stretch.specs.Part.{part};
ghost use Rattle.stretch.specs.Class.{every};
ghost use Rattle.alphabets.specs.Alphabets.{residue};
ghost use Rattle.image.specs.Fields.{issued, pool_used, pool_offset, status_in_record, active};
ghost use Rattle.image.specs.Fields.{field_of, start_of, end_of, status_of, offset_of};
ghost use Rattle.image.specs.Formed.{all, lengths, record_good};
ghost use Rattle.image.specs.Header.{Header};

use super::number::read_number;
use super::places::record_at;
use super::status::Status;
use super::{
    END_IN_RECORD, ISSUED_AT, LENGTH_IN_RECORD, OFFSET_IN_RECORD, POOL_OFFSET_AT, POOL_USED_AT,
    REFERENCE_LENGTH_AT, START_IN_RECORD, STATUS_IN_RECORD,
};
use alphabets::first_foreign;

// The field of an issued number's record that stands so many bytes from its start.
pub fn read_field(image: &[u8], number: usize, field: usize) -> usize
    requires header { Header image.now }
    requires le_number { (1 ≤ number) × (number ≤ issued image.now) }
    requires inside { field ≤ status_in_record }
    ensures { (result ≡ field_of image.now number field) × (result < 2 ^ 32) }
{
    read_number(image, record_at(number) + field)
}

// Whether a number that was issued is active.
pub fn is_active(image: &[u8], number: usize) -> bool
    requires header { Header image.now }
    requires le_number { (1 ≤ number) × (number ≤ issued image.now) }
    ensures { result ≡ eqb (status_of image.now number) active }
{
    read_field(image, number, STATUS_IN_RECORD) == usize::from(Status::Active)
}

// The tests of a record but for its residues, where `before` residues stand before them.
fn record_placed(image: &[u8], number: usize, reference: usize, before: usize) -> bool
    requires header { Header image.now }
    requires le_number { (1 ≤ number) × (number ≤ issued image.now) }
    ensures { result ≡ all (
        leb (start_of image.now number) (end_of image.now number)
        ∷ leb (end_of image.now number) reference
        ∷ leb (status_of image.now number) active
        ∷ eqb (offset_of image.now number) before
        ∷ []) }
{
    let start = read_field(image, number, START_IN_RECORD);
    let end = read_field(image, number, END_IN_RECORD);
    let status = read_field(image, number, STATUS_IN_RECORD);
    let offset = read_field(image, number, OFFSET_IN_RECORD);
    start <= end && end <= reference && status <= usize::from(Status::Active) && offset == before
}

// Whether that many bytes are all that the pool uses, and each is a residue.
fn pool_formed(image: &[u8], residues: usize) -> bool
    requires { Header image.now }
    ensures { result ≡ cond (eqb residues (pool_used image.now))
        (every residue (part image.now (pool_offset image.now)
        (pool_offset image.now + residues)))
        false }
{
    let used = read_number(image, POOL_USED_AT);
    if residues != used {
        return false;
    }
    let pool = read_number(image, POOL_OFFSET_AT);
    first_foreign(&image[pool..pool + residues]) == residues
}

// Whether every record is good, and their residues fill the part of the pool that is used. The residues
// are tested in one pass, since the records' parts of the pool lie one after the other.
pub fn records_formed(image: &[u8]) -> bool
    requires { Header image.now }
    ensures { result ≡ cond (below (record_good image.now) (issued image.now))
        (eqb (lengths image.now (issued image.now)) (pool_used image.now))
        false }
{
    let issued = read_number(image, ISSUED_AT);
    let reference = read_number(image, REFERENCE_LENGTH_AT);
    let mut residues = 0;
    for passed in 0..issued {
        let number = passed + 1;
        if !record_placed(image, number, reference, residues) {
            return false;
        }
        residues += read_field(image, number, LENGTH_IN_RECORD);
    }
    pool_formed(image, residues)
}
