// A blank image: its header, with no number issued.
ghost use Rattle.std.specs.Prelude.{◌≡◌, ◌≤◌, length};
ghost use Rattle.alphabets.specs.Alphabets.{digest_length};
ghost use Rattle.image.specs.Fields.{header_size, count_limit};
ghost use Rattle.changes.specs.Changes.{blanked};
ghost use Rattle.blank.specs.Calls.{Blanks};
ghost use Rattle.blank.specs.Inner.{capacity_answer, blank_answer};

use super::Capacities;
use alphabets::check_digest_text;
use changes::put_numbers;
use image::{
    COUNT_LIMIT, DIGEST_AT, EDITION_AT, FIRST_EDITION, HEADER_SIZE, POOL_LIMIT, journal_at, pool_at,
};
use refusal::{REFERENCE_LIMIT, Reason, Refusal, refuse};
use stretch::copy_at;

// 9: the capacities, then the buffer, of that much room.
fn check_capacities(room: u64, capacities: Capacities) -> Result<(), Refusal>
    ensures { result ≡ capacity_answer room capacities.records capacities.journal capacities.pool }
{
    let Capacities {
        records,
        journal,
        pool,
    } = capacities;
    let count_limit = COUNT_LIMIT as u64;
    if count_limit < records || count_limit < journal || (POOL_LIMIT as u64) < pool {
        return Err(refuse(Reason::NoRoomForImage, 0));
    }
    let size = pool_at(records as usize, journal as usize) as u64 + pool;
    if room < size {
        return Err(refuse(Reason::NoRoomForImage, size));
    }
    Ok(())
}

// The tests 1, 7, 9.
fn check_blank(
    room: u64,
    residues: u64,
    digest: &[u8],
    capacities: Capacities,
) -> Result<(), Refusal>
    ensures { result ≡ blank_answer room residues digest.now capacities.records capacities.journal
        capacities.pool }
{
    if REFERENCE_LIMIT < residues {
        return Err(refuse(Reason::OverLimit, 0));
    }
    check_digest_text(digest)?;
    check_capacities(room, capacities)
}

// The header's fields in their order, with no number issued, no change journalled and no pool used.
fn write_header(image: &mut [u8], residues: usize, digest: &[u8], capacities: Capacities)
    requires header_size_in_bounds { (header_size ≤ length image.old) × (length digest.now ≡ digest_length) }
    requires records_le_count_limit { (capacities.records ≤ count_limit) × (capacities.journal ≤ count_limit) }
    ensures { image.new ≡ blanked image.old residues digest.now capacities.records capacities.journal
        capacities.pool }
{
    let records = capacities.records as usize;
    let journal = capacities.journal as usize;
    let pool = capacities.pool as usize;
    let journal_at = journal_at(records);
    let pool_at = pool_at(records, journal);
    let fields = [
        FIRST_EDITION,
        records,
        0,
        HEADER_SIZE,
        journal,
        0,
        journal_at,
        pool,
        0,
        pool_at,
        residues,
    ];
    put_numbers(image, EDITION_AT, &fields);
    copy_at(image, DIGEST_AT, digest);
}

// Makes the image a blank one of these capacities, on a reference of so many residues.
pub fn blank(
    image: &mut [u8],
    residues: u64,
    digest: &[u8],
    capacities: Capacities,
) -> Result<(), Refusal>
    ensures { Blanks image.old residues digest.now capacities.records capacities.journal capacities.pool
        result image.new }
{
    check_blank(image.len() as u64, residues, digest, capacities)?;
    write_header(image, residues as usize, digest, capacities);
    Ok(())
}
