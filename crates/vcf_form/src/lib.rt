// The normal form of an alternate of a VCF line (document 02, Q-1). Crate `fearnavult` exports it.
//
// specs/Calls.antt has what the call promises, and specs/Worked.antt worked lines. proofs/Onward.antt has that what
// it answers and writes is the allele of the line to whatever call it is offered, and proofs/Promises.antt that no
// byte behind ALT matters.
#![tactic(auto)]

mod call;

pub use call::vcf_form;
