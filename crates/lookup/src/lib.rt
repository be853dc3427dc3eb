// How a normal form is found among the records of a well-formed image (document 01, "Entry"). Crate
// `form_entry` stands on it.
//
// specs/Lookup.antt has which record holds a form, and which is the lowest.
#![tactic(auto)]

mod find;

pub use find::lowest_holding;
