// How the line program's input is read (document 01, "The line program"): where a line ends, and what it
// says. Crate `answer_line` has the line that answers it.
//
// specs/Meaning.antt has what a line says, by the pieces that crate `fields` cuts it into.
#![tactic(auto)]

mod read;
mod scan;

pub use read::read_line;
pub use scan::line_end;

// What a line says: the replacement is the rest of the line from `from` on.
#[derive(Clone, Copy)]
pub struct Line {
    pub start: u64,
    pub end: u64,
    pub from: usize,
}
