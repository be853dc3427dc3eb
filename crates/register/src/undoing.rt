// Undo of the last change, and the seal after which none is undone.
ghost use Rattle.std.specs.Prelude.{◌≡◌, true, ◌-◌, ◌≤◌};
ghost use Rattle.image.specs.Fields.{issued, journal_count, status_of};
ghost use Rattle.image.specs.Formed.{well_formed};
ghost use Rattle.image.specs.Header.{Header};
ghost use Rattle.image.specs.Statuses.{code_of};
ghost use Rattle.changes.specs.Changes.{latest, undone};
ghost use Rattle.register.specs.Calls.{Undoes, Seals};
ghost use Rattle.register.specs.Inner.{undo_answer};

use changes::mark;
use image::{
    ENTRY_SIZE, JOURNAL_COUNT_AT, JOURNAL_OFFSET_AT, Status, is_active, put_number, read_number,
};
use record_reader::check;
use refusal::{Reason, Refusal, refuse};

// The status that a number does not have.
fn other_status(image: &[u8], number: usize) -> Status
    requires image_value { well_formed image.now ≡ true }
    requires le_number { (1 ≤ number) × (number ≤ issued image.now) }
    ensures { code_of result ≡ 1 - status_of image.now number }
{
    if is_active(image, number) {
        Status::Inactive
    } else {
        Status::Active
    }
}

// The tests 10, 18.
#[tactic(auto, unfolding(crate::specs::Calls::undo_grounds))]
fn check_undo(image: &[u8]) -> Result<(), Refusal>
    ensures { result ≡ undo_answer image.now }
{
    check(image)?;
    if read_number(image, JOURNAL_COUNT_AT) == 0 {
        return Err(refuse(Reason::NothingToUndo, 0));
    }
    Ok(())
}

// The last journalled number.
fn latest_number(image: &[u8]) -> usize
    requires header { Header image.now }
    requires image_value { well_formed image.now ≡ true }
    requires bound { 1 ≤ journal_count image.now }
    ensures latest { result ≡ latest image.now }
    ensures le_number { (1 ≤ result) × (result ≤ issued image.now) }
{
    let count = read_number(image, JOURNAL_COUNT_AT);
    let journal = read_number(image, JOURNAL_OFFSET_AT);
    read_number(image, journal + ENTRY_SIZE * (count - 1))
}

// Flips the status of the last journalled number, takes it from the journal, and answers it.
#[tactic(auto, unfolding(changes::specs::Changes::undone))]
fn undo_latest(image: &mut [u8]) -> usize
    requires header { Header image.old }
    requires image_value { well_formed image.old ≡ true }
    requires bound { 1 ≤ journal_count image.old }
    ensures { (result ≡ latest image.old) × (image.new ≡ undone image.old) }
{
    let count = read_number(image, JOURNAL_COUNT_AT);
    let number = latest_number(image);
    let status = other_status(image, number);
    mark(image, number, status);
    put_number(image, JOURNAL_COUNT_AT, count - 1);
    number
}

// Takes back the last journalled change, and answers its number.
#[tactic(auto, unfolding(crate::specs::Calls::Undoes))]
pub fn undo(image: &mut [u8]) -> Result<u64, Refusal>
    ensures { Undoes image.old result image.new }
{
    check_undo(image)?;
    Ok(undo_latest(image) as u64)
}

// Empties the journal, so that no change before it can be undone.
#[tactic(auto, unfolding(crate::specs::Calls::Seals, changes::specs::Changes::sealed))]
pub fn seal(image: &mut [u8]) -> Result<(), Refusal>
    ensures { Seals image.old result image.new }
{
    check(image)?;
    put_number(image, JOURNAL_COUNT_AT, 0);
    Ok(())
}
