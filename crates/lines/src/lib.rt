// The line program on lent slices (document 01, "The line program"): from line to line through an input,
// and the answer of each. The program itself is `lines_main`.
//
// specs/Output.antt has what is printed for a whole input, and specs/Steps.antt what a step says.
#![tactic(auto)]

mod walk;

pub use walk::{first_step, next_step};

// Input past this is not read.
pub const INPUT_LIMIT: usize = 65_536;

// A buffer with room for every answer to an input within that limit.
pub const ROOM: usize = INPUT_LIMIT + answer_line::BEYOND;

// Where a step comes to: the end of the reference, which is the first line; the place where the next line
// begins, past the end where none does; and how many bytes of the buffer are to be printed.
#[derive(Clone, Copy)]
pub struct Step {
    pub reference: usize,
    pub next: usize,
    pub written: usize,
}
