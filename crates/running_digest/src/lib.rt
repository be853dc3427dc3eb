// The running digest in document 01's form: one small state, lent, and brought forward by each part.
//
// Crate `sequence_identifier` has the digest itself. The C library exports these; the rest of the project uses
// those.
#![tactic(auto)]

ghost use Rattle.sequence_identifier.specs.Calls.{Finishes};
ghost use Rattle.running_digest.specs.Calls.{Feeds};

use refusal::Refusal;
pub use sequence_identifier::begin;
use sha512::Running;

// Goes on with one more part. A refused part leaves the state as it was. Kept beside `sequence_identifier::feed` for
// `Feeds`, which docs and edits name here.
pub fn feed(state: &mut Running, part: &[u8]) -> Result<(), Refusal>
    ensures { Feeds state.old part.now result state.new }
{
    sequence_identifier::feed(state, part)
}

// Writes the identifier of all the parts into `out` from `place` on. The state is only read.
pub fn finish(state: &Running, out: &mut [u8], place: u64) -> Result<u64, Refusal>
    ensures { Finishes state.now out.old place result out.new }
{
    sequence_identifier::finish(*state, out, place)
}
