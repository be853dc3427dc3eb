// The tests of an image's header.
ghost use Rattle.std.specs.Prelude.{◌≡◌, ◌+◌, ◌≤◌, leb, length};
ghost use Rattle.stretch.specs.Class.{every};
ghost use Rattle.alphabets.specs.Alphabets.{base64url};
ghost use Rattle.image.specs.Fields.{header_size, pool_capacity, sequence_digest, pool_offset};
ghost use Rattle.image.specs.Formed.{laid_out, counts_within, within_limits, header_formed};

use super::number::read_number;
use super::places::{journal_at, pool_at};
use super::{
    COUNT_LIMIT, DIGEST_AT, EDITION_AT, FIRST_EDITION, HEADER_SIZE, ISSUED_AT, JOURNAL_CAPACITY_AT,
    JOURNAL_COUNT_AT, JOURNAL_OFFSET_AT, POOL_CAPACITY_AT, POOL_LIMIT, POOL_OFFSET_AT,
    POOL_USED_AT, RECORD_CAPACITY_AT, RECORDS_OFFSET_AT, REFERENCE_LENGTH_AT,
};
use alphabets::{Base64url, all_of};

const REFERENCE_LIMIT: usize = refusal::REFERENCE_LIMIT as usize;

// The length is a clause of each of these: the tests are defined over the whole image, and an array of its front
// would not be it.
#[tactic(auto, unfolding(crate::specs::Formed::laid_out))]
fn laid_out(image: &[u8]) -> bool
    requires { header_size ≤ length image.now }
    ensures { result ≡ laid_out image.now }
{
    let edition = read_number(image, EDITION_AT);
    let records = read_number(image, RECORD_CAPACITY_AT);
    let records_at = read_number(image, RECORDS_OFFSET_AT);
    let entries = read_number(image, JOURNAL_CAPACITY_AT);
    let journal = read_number(image, JOURNAL_OFFSET_AT);
    let pool = read_number(image, POOL_OFFSET_AT);
    let after_records = journal_at(records);
    let after_entries = pool_at(records, entries);
    edition == FIRST_EDITION
        && records_at == HEADER_SIZE
        && journal == after_records
        && pool == after_entries
}

#[tactic(auto, unfolding(crate::specs::Formed::counts_within))]
fn counts_within(image: &[u8]) -> bool
    requires { header_size ≤ length image.now }
    ensures { result ≡ counts_within image.now }
{
    let records = read_number(image, RECORD_CAPACITY_AT);
    let issued = read_number(image, ISSUED_AT);
    let entries = read_number(image, JOURNAL_CAPACITY_AT);
    let journalled = read_number(image, JOURNAL_COUNT_AT);
    let pool = read_number(image, POOL_CAPACITY_AT);
    let used = read_number(image, POOL_USED_AT);
    issued <= records && journalled <= entries && used <= pool
}

#[tactic(auto, unfolding(crate::specs::Formed::within_limits))]
fn within_limits(image: &[u8]) -> bool
    requires { header_size ≤ length image.now }
    ensures { result ≡ within_limits image.now }
{
    let records = read_number(image, RECORD_CAPACITY_AT);
    let entries = read_number(image, JOURNAL_CAPACITY_AT);
    let pool = read_number(image, POOL_CAPACITY_AT);
    let reference = read_number(image, REFERENCE_LENGTH_AT);
    records <= COUNT_LIMIT
        && entries <= COUNT_LIMIT
        && pool <= POOL_LIMIT
        && reference <= REFERENCE_LIMIT
}

// Whether the digest is of base64url characters.
fn digest_formed(image: &[u8]) -> bool
    requires { header_size ≤ length image.now }
    ensures { result ≡ every base64url (sequence_digest image.now) }
{
    all_of::<Base64url>(&image[DIGEST_AT..HEADER_SIZE])
}

// Whether the pool's capacity lies within the bytes.
fn has_room(image: &[u8]) -> bool
    requires { header_size ≤ length image.now }
    ensures { result ≡ leb (pool_offset image.now + pool_capacity image.now) (length image.now) }
{
    read_number(image, POOL_OFFSET_AT) + read_number(image, POOL_CAPACITY_AT) <= image.len()
}

// Whether an image has a header by which the rest can be read.
#[tactic(auto, unfolding(crate::specs::Formed::header_formed))]
pub fn header_formed(image: &[u8]) -> bool
    ensures { result ≡ header_formed image.now }
{
    if image.len() < HEADER_SIZE {
        return false;
    }
    let laid = laid_out(image);
    let counted = counts_within(image);
    let limited = within_limits(image);
    let digest = digest_formed(image);
    let room = has_room(image);
    laid && counted && limited && digest && room
}
