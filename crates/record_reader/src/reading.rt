// The test of a number, and its record.
ghost use Rattle.std.specs.Prelude.{◌≡◌, ◌≤◌};
ghost use Rattle.image.specs.Fields.{issued};
ghost use Rattle.image.specs.Header.{Header};
ghost use Rattle.record_reader.specs.Calls.{record_at, record_read};
ghost use Rattle.record_reader.specs.Inner.{number_answer};

use super::Record;
use super::checking::check;
use image::{
    END_IN_RECORD, ISSUED_AT, LENGTH_IN_RECORD, OFFSET_IN_RECORD, POOL_OFFSET_AT, START_IN_RECORD,
    Status, is_active, read_field, read_number,
};
use refusal::{Reason, Refusal, refuse};

// Whether a number was issued: the tests 10, 16.
#[tactic(auto, unfolding(crate::specs::Calls::number_grounds))]
pub fn check_number(image: &[u8], number: u64) -> Result<(), Refusal>
    ensures { result ≡ number_answer image.now number }
{
    check(image)?;
    let issued = read_number(image, ISSUED_AT) as u64;
    if !(1..=issued).contains(&number) {
        return Err(refuse(Reason::NoSuchNumber, issued));
    }
    Ok(())
}

// The record of a number that was issued.
#[tactic(auto, unfolding(image::specs::Statuses::status_from))]
fn record_of(image: &[u8], number: usize) -> Record
    requires header { Header image.now }
    requires le_number { (1 ≤ number) × (number ≤ issued image.now) }
    ensures { result ≡ record_at image.now number }
{
    let start = read_field(image, number, START_IN_RECORD);
    let end = read_field(image, number, END_IN_RECORD);
    let status = if is_active(image, number) {
        Status::Active
    } else {
        Status::Inactive
    };
    let offset = read_number(image, POOL_OFFSET_AT) + read_field(image, number, OFFSET_IN_RECORD);
    let length = read_field(image, number, LENGTH_IN_RECORD);
    Record {
        start: start as u64,
        end: end as u64,
        status,
        offset: offset as u64,
        length: length as u64,
    }
}

// What stands under a number.
pub fn read_record(image: &[u8], number: u64) -> Result<Record, Refusal>
    ensures { result ≡ record_read image.now number }
{
    check_number(image, number)?;
    Ok(record_of(image, number as usize))
}
