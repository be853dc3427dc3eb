// The answers of the calls as C reads them. Crate `fearnavult` exports the calls with these.
//
// specs/Flat.antt has the flattening, and what every export of the C library promises.
#![tactic(auto)]

mod numbered;
mod read;
mod written;

// Each begins with the refusal and its value, and has the zeros of its own fields: the C interface.

// What a call that writes answers: document 01's number of the refusal and its value, and the count
// of bytes written. Each is 0 where it doesn't apply.
#[repr(C)]
#[derive(Clone, Copy, Default)]
pub struct FvWritten {
    pub refusal: u64,
    pub value: u64,
    pub length: u64,
}

// What the normal form's call answers: the refusal as above, the kind (0 unchanged, 1 substitution,
// 2 indel), the interval, the length of the replacement, and how far it moved. Each is 0 where it doesn't
// apply.
#[repr(C)]
#[derive(Clone, Copy)]
pub struct FvForm {
    pub refusal: u64,
    pub value: u64,
    pub kind: u64,
    pub start: u64,
    pub end: u64,
    pub length: u64,
    pub moved: moved::Moved,
}

// What an allele's identifier answers: as a call that writes, and how far the normal form moved. Each is 0
// where it doesn't apply.
#[repr(C)]
#[derive(Clone, Copy)]
pub struct FvIdentified {
    pub refusal: u64,
    pub value: u64,
    pub length: u64,
    pub moved: moved::Moved,
}

// What a location text is read as: the refusal as above, the interval, and where the digest lies.
// Each is 0 where it doesn't apply.
#[repr(C)]
#[derive(Clone, Copy, Default)]
pub struct FvLocation {
    pub refusal: u64,
    pub value: u64,
    pub start: u64,
    pub end: u64,
    pub digest: u64,
}

// What an allele text is read as: the refusal as above, where the location's digest lies, and where
// the sequence does, with its length. Each is 0 where it doesn't apply.
#[repr(C)]
#[derive(Clone, Copy, Default)]
pub struct FvAllele {
    pub refusal: u64,
    pub value: u64,
    pub location: u64,
    pub sequence: u64,
    pub length: u64,
}

// What the count of a line's alternates answers: the refusal as above, and how many places there are.
// Each is 0 where it doesn't apply.
#[repr(C)]
#[derive(Clone, Copy, Default)]
pub struct FvCounted {
    pub refusal: u64,
    pub value: u64,
    pub count: u64,
}

// What a call answers that only accepts or refuses: the refusal as above.
#[repr(C)]
#[derive(Clone, Copy, Default)]
pub struct FvOutcome {
    pub refusal: u64,
    pub value: u64,
}

// What an entry answers: the refusal as above, how the allele was found (1 new, 2 again, 3 known), its
// number, and how far its normal form moved. Each is 0 where it doesn't apply.
#[repr(C)]
#[derive(Clone, Copy)]
pub struct FvEntered {
    pub refusal: u64,
    pub value: u64,
    pub answer: u64,
    pub number: u64,
    pub moved: moved::Moved,
}

// What the reading of a record answers: the refusal as above, the interval, the status (1 active, 0 inactive), and
// where the replacement lies in the image. Each is 0 where it doesn't apply.
#[repr(C)]
#[derive(Clone, Copy, Default)]
pub struct FvRecord {
    pub refusal: u64,
    pub value: u64,
    pub start: u64,
    pub end: u64,
    pub status: u64,
    pub offset: u64,
    pub length: u64,
}

// What an undo answers: the refusal as above, and the number. Each is 0 where it doesn't apply.
#[repr(C)]
#[derive(Clone, Copy, Default)]
pub struct FvUndone {
    pub refusal: u64,
    pub value: u64,
    pub number: u64,
}
