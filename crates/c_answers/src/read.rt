// The answers of the calls that read a text or an image, flattened.
ghost use Rattle.std.specs.Prelude.{◌≡◌};
ghost use Rattle.c_answers.specs.Flat.{flat_location, flat_allele, flat_counted, flat_record};

use super::{FvAllele, FvCounted, FvLocation, FvRecord};
use record_reader::Record;
use refusal::Refusal;
use text_reader::{AlleleParts, LocationParts};

impl From<Result<LocationParts, Refusal>> for FvLocation {
    ghost from_gives = { λ answer flat. flat ≡ flat_location answer };

    fn from(answer: Result<LocationParts, Refusal>) -> FvLocation {
        match answer {
            Ok(location) => FvLocation {
                start: location.start,
                end: location.end,
                digest: location.digest,
                ..FvLocation::default()
            },
            Err(why) => FvLocation {
                refusal: why.reason.into(),
                value: why.value,
                ..FvLocation::default()
            },
        }
    }
}

impl From<Result<AlleleParts, Refusal>> for FvAllele {
    ghost from_gives = { λ answer flat. flat ≡ flat_allele answer };

    fn from(answer: Result<AlleleParts, Refusal>) -> FvAllele {
        match answer {
            Ok(allele) => FvAllele {
                location: allele.location,
                sequence: allele.sequence,
                length: allele.length,
                ..FvAllele::default()
            },
            Err(why) => FvAllele {
                refusal: why.reason.into(),
                value: why.value,
                ..FvAllele::default()
            },
        }
    }
}

impl From<Result<u64, Refusal>> for FvCounted {
    ghost from_gives = { λ answer flat. flat ≡ flat_counted answer };

    fn from(answer: Result<u64, Refusal>) -> FvCounted {
        match answer {
            Ok(count) => FvCounted {
                count,
                ..FvCounted::default()
            },
            Err(why) => FvCounted {
                refusal: why.reason.into(),
                value: why.value,
                ..FvCounted::default()
            },
        }
    }
}

impl From<Result<Record, Refusal>> for FvRecord {
    ghost from_gives = { λ answer flat. flat ≡ flat_record answer };

    fn from(answer: Result<Record, Refusal>) -> FvRecord {
        match answer {
            Ok(read) => FvRecord {
                start: read.start,
                end: read.end,
                status: usize::from(read.status) as u64,
                offset: read.offset,
                length: read.length,
                ..FvRecord::default()
            },
            Err(why) => FvRecord {
                refusal: why.reason.into(),
                value: why.value,
                ..FvRecord::default()
            },
        }
    }
}
