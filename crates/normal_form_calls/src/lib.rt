// The calls for a normal form (document 01, "The normal form"): an allele is tested, formed and written.
// Crates `answer_line`, `vcf_form`, `allele_identifier` and `entry` stand on them.
//
// specs/Calls.antt has what they promise, and specs/Worked.antt the worked alleles as calls.
#![tactic(auto)]

mod call;

pub use call::{
    check_given, clean, form_of, lay_form, locate, locate_clean, normal_form, write_form,
};

// A normal form, with the length of its replacement.
#[derive(Clone, Copy)]
pub struct Form {
    pub kind: normal_form::Kind,
    pub start: u64,
    pub end: u64,
    pub length: u64,
}

// What the call for a normal form answers: the form, and how far it moved.
#[derive(Clone, Copy)]
pub struct Formed {
    pub form: Form,
    pub moved: moved::Moved,
}
