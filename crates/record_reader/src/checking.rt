// The test of an image.
ghost use Rattle.std.specs.Prelude.{◌≡◌};
ghost use Rattle.record_reader.specs.Calls.{checked};

use image::well_formed;
use refusal::{Reason, Refusal, refuse};

// Whether an image is well formed.
pub fn check(image: &[u8]) -> Result<(), Refusal>
    ensures { result ≡ checked image.now }
{
    if !well_formed(image) {
        return Err(refuse(Reason::ImageNotWellFormed, 0));
    }
    Ok(())
}
