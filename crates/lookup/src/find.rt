// How a normal form is found among the records.
ghost use Rattle.std.specs.Prelude.{◌≡◌, true, [], ◌∷◌, ◌≤◌, eqb, IfSome};
ghost use Rattle.stretch.specs.Same.{same};
ghost use Rattle.stretch.specs.Three.{whole};
ghost use Rattle.image.specs.Fields.{issued, start_of, end_of, status_of, replacement_of};
ghost use Rattle.image.specs.Formed.{all, well_formed};
ghost use Rattle.image.specs.Header.{Header};
ghost use Rattle.image.specs.Statuses.{code_of};
ghost use Rattle.lookup.specs.Lookup.{asked, holds, lowest_holding};

use image::{
    END_IN_RECORD, ISSUED_AT, LENGTH_IN_RECORD, OFFSET_IN_RECORD, POOL_OFFSET_AT, START_IN_RECORD,
    STATUS_IN_RECORD, Status, read_field, read_number,
};
use normal_form_calls::Form;
use stretch::{Three, equal};

// Whether a stretch is the text. Its last part is compared first, since that tells another length at once.
fn is_text(s: &[u8], text: Three) -> bool
    ensures { result ≡ same s.now (whole text.entry) }
{
    let Some((first, rest)) = s.split_at_checked(text.first.len()) else {
        return false;
    };
    let Some((middle, last)) = rest.split_at_checked(text.middle.len()) else {
        return false;
    };
    equal(last, text.last) && equal(middle, text.middle) && equal(first, text.first)
}

// Whether a number has this status, start and end.
fn holds_numbers(image: &[u8], number: usize, status: Status, start: u64, end: u64) -> bool
    requires header { Header image.now }
    requires le_number { (1 ≤ number) × (number ≤ issued image.now) }
    ensures { result ≡ all (eqb (status_of image.now number) (code_of status)
        ∷ eqb (start_of image.now number) start ∷ eqb (end_of image.now number) end ∷ []) }
{
    let stored_status = read_field(image, number, STATUS_IN_RECORD);
    let stored_start = read_field(image, number, START_IN_RECORD) as u64;
    let stored_end = read_field(image, number, END_IN_RECORD) as u64;
    let asked_status = usize::from(status);
    stored_status == asked_status && stored_start == start && stored_end == end
}

// Whether a number's replacement is the text.
fn holds_replacement(image: &[u8], number: usize, text: Three) -> bool
    requires header { Header image.now }
    requires image_value { well_formed image.now ≡ true }
    requires le_number { (1 ≤ number) × (number ≤ issued image.now) }
    ensures { result ≡ same (replacement_of image.now number) (whole text.entry) }
{
    let length = read_field(image, number, LENGTH_IN_RECORD);
    let offset = read_field(image, number, OFFSET_IN_RECORD);
    let from = read_number(image, POOL_OFFSET_AT) + offset;
    is_text(&image[from..from + length], text)
}

fn holds_form(image: &[u8], number: usize, status: Status, form: Form, text: Three) -> bool
    requires header { Header image.now }
    requires image_value { well_formed image.now ≡ true }
    requires le_number { (1 ≤ number) × (number ≤ issued image.now) }
    ensures { result ≡ holds image.now (code_of status) (asked form (whole text.entry)) number }
{
    holds_numbers(image, number, status, form.start, form.end)
        && holds_replacement(image, number, text)
}

// The lowest number of that status that holds the form with this replacement.
pub fn lowest_holding(image: &[u8], status: Status, form: Form, text: Three) -> Option<usize>
    requires header { Header image.now }
    requires image_value { well_formed image.now ≡ true }
    ensures lowest { result ≡ lowest_holding image.now (code_of status) (asked form (whole text.entry)) }
    ensures le_number { IfSome result (λ number. (1 ≤ number) × (number ≤ issued image.now)) }
{
    (1..read_number(image, ISSUED_AT) + 1).find(|&number| holds_form(
        image, number, status, form, text,
    ))
}
