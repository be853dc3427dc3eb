// The entry of a normal form.
ghost use Rattle.std.specs.Prelude.{◌≡◌, true, [], ◌∷◌, ◌+◌, ◌≤◌};
ghost use Rattle.stretch.specs.Three.{whole, whole_length};
ghost use Rattle.refusal.specs.Verdict.{verdict};
ghost use Rattle.refusal.specs.Keeps.{Keeps};
ghost use Rattle.image.specs.Fields.{issued};
ghost use Rattle.image.specs.Formed.{well_formed};
ghost use Rattle.image.specs.Header.{Header};
ghost use Rattle.lookup.specs.Lookup.{asked};
ghost use Rattle.changes.specs.Changes.{reentered};
ghost use Rattle.changes.specs.Grounds.{no_journal_room};
ghost use Rattle.form_entry.specs.declared.Way.TheVariants.{New, Again};
ghost use Rattle.form_entry.specs.Found.{◌under◌, answer_of};
ghost use Rattle.form_entry.specs.Calls.{EntersAs, EntersForm};
ghost use Rattle.form_entry.specs.Inner.{new_answer};

use super::{Entered, Way};
use changes::{change, check_journal, number_form};
use image::{ISSUED_AT, POOL_CAPACITY_AT, POOL_USED_AT, RECORD_CAPACITY_AT, Status, read_number};
use lookup::lowest_holding;
use moved::Moved;
use normal_form_calls::Form;
use refusal::{Reason, Refusal, refuse, sum_exceeds};
use stretch::Three;

// The tests 13, 14, 15.
fn check_new(image: &[u8], residues: u64) -> Result<(), Refusal>
    requires { Header image.now }
    ensures { result ≡ new_answer image.now residues }
{
    let records = read_number(image, RECORD_CAPACITY_AT);
    if records <= read_number(image, ISSUED_AT) {
        return Err(refuse(Reason::NoFreeRecord, records as u64));
    }
    let pool = read_number(image, POOL_CAPACITY_AT) as u64;
    if sum_exceeds(read_number(image, POOL_USED_AT) as u64, residues, pool) {
        return Err(refuse(Reason::NoPoolRoom, pool));
    }
    check_journal(image)
}

// Makes a number active again.
#[tactic(auto, unfolding(changes::specs::Changes::reentered))]
fn reenter(image: &mut [u8], number: usize, moved: Moved) -> Result<Entered, Refusal>
    requires header { Header image.old }
    requires le_number { (1 ≤ number) × (number ≤ issued image.old) }
    ensures { Keeps (verdict (no_journal_room image.old ∷ [])) (answer_of (Again under number) moved) image.old
        (reentered image.old number) result image.new }
{
    check_journal(image)?;
    change(image, number, Status::Active);
    Ok(Entered {
        found: Way::Again,
        number: number as u64,
        moved,
    })
}

// Gives a form the next number.
fn enter_new(image: &mut [u8], form: Form, moved: Moved, text: Three) -> Result<Entered, Refusal>
    requires header { Header image.old }
    requires length_value { form.length ≡ whole_length text }
    ensures { EntersAs image.old (asked form (whole text.entry)) moved
        (New under (issued image.old + 1)) result image.new }
{
    check_new(image, form.length)?;
    let number = read_number(image, ISSUED_AT) as u64 + 1;
    number_form(image, form, text);
    Ok(Entered {
        found: Way::New,
        number,
        moved,
    })
}

// "Known", else "again", else "new"; how far the form moved is handed on.
#[tactic(auto, unfolding(crate::specs::Found::found, crate::specs::Calls::EntersForm))]
pub fn enter_form(
    image: &mut [u8],
    form: Form,
    moved: Moved,
    text: Three,
) -> Result<Entered, Refusal>
    requires header { Header image.old }
    requires image_value { well_formed image.old ≡ true }
    requires length_value { form.length ≡ whole_length text }
    ensures { EntersForm image.old (asked form (whole text.entry)) moved result image.new }
{
    if let Some(known) = lowest_holding(image, Status::Active, form, text) {
        return Ok(Entered {
            found: Way::Known,
            number: known as u64,
            moved,
        });
    }
    if let Some(again) = lowest_holding(image, Status::Inactive, form, text) {
        return reenter(image, again, moved);
    }
    enter_new(image, form, moved, text)
}
