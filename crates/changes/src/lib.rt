// What changes write in a well-formed image (document 01, "The register image"). The calls of `blank`,
// `entry` (by `form_entry`) and `register` are made of these.
//
// specs/Changes.antt has what each change leaves of the image, and specs/Grounds.antt the grounds on which
// calls on an image refuse.
#![tactic(auto)]

mod room;
mod write;

pub use room::check_journal;
pub use write::{change, mark, number_form, put_numbers};
