// The line that answers a line of the line program (document 01, "The line program"; document 02, Q-5).
// Crate `lines` goes from line to line.
//
// specs/Answers.antt has what is printed for a line.
#![tactic(auto)]

mod reply;
mod write;

pub use reply::answer;

// The most bytes of an answer before its replacement.
const FRONT_ROOM: usize = 56;

// And after it: the four numbers that say how far the form moved.
const MOVES_ROOM: usize = 84;

// The most bytes that an answer has more than the reference and the line together: these, and a line feed.
pub const BEYOND: usize = FRONT_ROOM + MOVES_ROOM + 1;
