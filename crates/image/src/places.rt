// Where the records, the journal and the pool stand.
ghost use Rattle.std.specs.Prelude.{◌≡◌, ◌^◌, ◌<◌, ◌≤◌};
ghost use Rattle.image.specs.Fields.{count_limit, record_place, journal_place, pool_place};

use super::{ENTRY_SIZE, HEADER_SIZE, RECORD_SIZE};

// The place of a record, by its number.
pub fn record_at(number: usize) -> usize
    requires { (1 ≤ number) × (number ≤ count_limit) }
    ensures { (result ≡ record_place number) × (result < 2 ^ 32) }
{
    HEADER_SIZE + RECORD_SIZE * (number - 1)
}

// The place of the journal, after so many records.
pub fn journal_at(records: usize) -> usize
    requires { records < 2 ^ 32 }
    ensures { (result ≡ journal_place records) × (result < 2 ^ 37) }
{
    HEADER_SIZE + RECORD_SIZE * records
}

// The place of the pool, after so many records and journal entries.
pub fn pool_at(records: usize, entries: usize) -> usize
    requires { (records < 2 ^ 32) × (entries < 2 ^ 32) }
    ensures { (result ≡ pool_place records entries) × (result < 2 ^ 40) }
{
    journal_at(records) + ENTRY_SIZE * entries
}
