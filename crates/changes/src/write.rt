// The writes that the changes are made of.
ghost use Rattle.std.specs.Prelude.{◌≡◌, [], ◌∷◌, ◌++◌, ◌+◌, ◌*◌, ◌<◌, ◌≤◌, length};
ghost use Rattle.stretch.specs.Over.{over};
ghost use Rattle.stretch.specs.Three.{whole, whole_length};
ghost use Rattle.image.specs.Numbers.{numbers, put};
ghost use Rattle.image.specs.Fields.{header_size, count_limit, entry_size, status_in_record, issued, issued_place};
ghost use Rattle.image.specs.Fields.{journal_capacity, journal_count, journal_count_place, pool_capacity, pool_used};
ghost use Rattle.image.specs.Fields.{pool_used_place, record_capacity, record_of, active};
ghost use Rattle.image.specs.Header.{Header};
ghost use Rattle.image.specs.Statuses.{code_of};
ghost use Rattle.lookup.specs.Lookup.{asked};
ghost use Rattle.changes.specs.Changes.{journalled, marked, numbered};

use image::{
    ENTRY_SIZE, ISSUED_AT, JOURNAL_COUNT_AT, JOURNAL_OFFSET_AT, POOL_OFFSET_AT, POOL_USED_AT,
    STATUS_IN_RECORD, Status, put_number, read_number, record_at,
};
use normal_form_calls::Form;
use stretch::{Three, put_three};

// Puts numbers, one after the other.
pub fn put_numbers(image: &mut [u8], at: usize, values: &[usize])
    requires { at + 4 * length values.now ≤ length image.old }
    ensures { image.new ≡ over image.old at (numbers values.now) }
{
    for (passed, &value) in values.iter().enumerate() {
        put_number(image, at + 4 * passed, value);
    }
}

// Makes a number active or inactive.
pub fn mark(image: &mut [u8], number: usize, status: Status)
    requires header { Header image.old }
    requires le_number { (1 ≤ number) × (number ≤ issued image.old) }
    ensures { image.new ≡ marked image.old number (code_of status) }
{
    let code = usize::from(status);
    put_number(image, record_at(number) + STATUS_IN_RECORD, code);
}

// Puts a number in the journal that begins at `at`, after so many entries, and counts it.
fn journal(image: &mut [u8], at: usize, count: usize, number: usize)
    requires { (header_size ≤ at) × (count < count_limit) × (at + entry_size * count + 4 ≤ length image.old) }
    ensures { image.new ≡ put (put image.old (at + entry_size * count) number) journal_count_place
        (count + 1) }
{
    put_number(&mut image[at..], ENTRY_SIZE * count, number);
    put_number(image, JOURNAL_COUNT_AT, count + 1);
}

// Makes a number active or inactive, and journals it.
pub fn change(image: &mut [u8], number: usize, status: Status)
    requires header { Header image.old }
    requires le_number { (1 ≤ number) × (number ≤ issued image.old) }
    requires image_bound { journal_count image.old < journal_capacity image.old }
    ensures { image.new ≡ journalled image.old (marked image.old number (code_of status)) number }
{
    let at = read_number(image, JOURNAL_OFFSET_AT);
    let count = read_number(image, JOURNAL_COUNT_AT);
    mark(image, number, status);
    journal(image, at, count, number);
}

// Puts an active record of a form whose replacement stands in the pool from `offset` on.
#[tactic(auto, unfolding(image::specs::Fields::record_of))]
fn put_record(image: &mut [u8], at: usize, form: Form, offset: usize)
    requires { at + status_in_record + 4 ≤ length image.old }
    ensures { image.new ≡ over image.old at
        (record_of form.start form.end offset form.length active) }
{
    let start = form.start as usize;
    let end = form.end as usize;
    let length = form.length as usize;
    let active = usize::from(Status::Active);
    put_numbers(image, at, &[start, end, offset, length, active]);
}

// Puts a replacement in the pool, whose tail is lent.
fn put_replacement(image: &mut [u8], at: usize, text: Three)
    requires { at + whole_length text ≤ length image.old }
    ensures { image.new ≡ over image.old at (whole text.entry) }
{
    put_three(&mut image[at..], 0, text);
}

// Puts how many numbers are issued and how much of the pool is used.
fn put_counts(image: &mut [u8], issued: usize, used: usize)
    requires { header_size ≤ length image.old }
    ensures { image.new ≡ put (put image.old issued_place issued) pool_used_place used }
{
    put_number(image, ISSUED_AT, issued);
    put_number(image, POOL_USED_AT, used);
}

// Gives a form the next number, in an image that has room for it.
pub fn number_form(image: &mut [u8], form: Form, text: Three)
    requires header { Header image.old }
    requires length_value { form.length ≡ whole_length text }
    requires image_bound { (issued image.old < record_capacity image.old)
        × (pool_used image.old + form.length ≤ pool_capacity image.old)
        × (journal_count image.old < journal_capacity image.old) }
    ensures { image.new ≡ numbered image.old
        (asked form (whole text.entry)) }
{
    let number = read_number(image, ISSUED_AT) + 1;
    let used = read_number(image, POOL_USED_AT);
    let pool = read_number(image, POOL_OFFSET_AT);
    let at = read_number(image, JOURNAL_OFFSET_AT);
    let count = read_number(image, JOURNAL_COUNT_AT);
    put_record(image, record_at(number), form, used);
    put_replacement(image, pool + used, text);
    put_counts(image, number, used + form.length as usize);
    journal(image, at, count, number);
}
