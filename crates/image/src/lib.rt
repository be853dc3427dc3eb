// The bytes of a register image (document 01, "The register image"): where each field stands, its
// numbers, and the test of well-formedness. Crates `lookup`, `changes`, `form_entry`, `blank`, `entry` and
// `register` stand on it.
//
// specs/Numbers.antt has the numbers, specs/Fields.antt the fields, and specs/Formed.antt when an image
// is well formed.
#![tactic(auto)]

mod formed;
mod header;
mod number;
mod places;
mod records;
mod status;

pub use formed::well_formed;
pub use header::header_formed;
pub use number::{put_number, read_number};
pub use places::{journal_at, pool_at, record_at};
pub use records::{is_active, read_field};
pub use status::Status;

pub const HEADER_SIZE: usize = 76;

pub const RECORD_SIZE: usize = 20;

pub const ENTRY_SIZE: usize = 4;

// The most records, and the most journal entries.
pub const COUNT_LIMIT: usize = 10_000;

// The most residues of the pool.
pub const POOL_LIMIT: usize = 10_000_000;

// The only edition there is.
pub const FIRST_EDITION: usize = 1;

// The places of the header's fields.
pub const EDITION_AT: usize = 0;

pub const RECORD_CAPACITY_AT: usize = 4;

pub const ISSUED_AT: usize = 8;

pub const RECORDS_OFFSET_AT: usize = 12;

pub const JOURNAL_CAPACITY_AT: usize = 16;

pub const JOURNAL_COUNT_AT: usize = 20;

pub const JOURNAL_OFFSET_AT: usize = 24;

pub const POOL_CAPACITY_AT: usize = 28;

pub const POOL_USED_AT: usize = 32;

pub const POOL_OFFSET_AT: usize = 36;

pub const REFERENCE_LENGTH_AT: usize = 40;

pub const DIGEST_AT: usize = 44;

// The places of a record's fields within it.
pub const START_IN_RECORD: usize = 0;

pub const END_IN_RECORD: usize = 4;

pub const OFFSET_IN_RECORD: usize = 8;

pub const LENGTH_IN_RECORD: usize = 12;

pub const STATUS_IN_RECORD: usize = 16;
