// How a text is read word by word, and refusal 8 once for every text (document 01, "Texts and
// identifiers"). Which words a text has is said above, in `text_reader`.
//
// specs/Prefix.antt has the longest prefix that begins some accepted text, specs/Vocabulary.antt the
// words, specs/Walk.antt how a text is read by them, and proofs/Layouts.antt a text as a table of words.
#![tactic(auto)]

mod range;
mod words;

pub use words::{past_decimal, past_digest, past_residues, past_word};

// Where a walk stopped for good.
#[derive(Clone, Copy)]
pub struct Stopped {
    pub at: usize,
}

// How far a text is read: the place from which the walk goes on, or where it stopped. That it lies in the text is a
// clause of each step, since the text is lent beside it.
pub type Walk = Result<usize, Stopped>;

// Where a decimal ends, and its number.
#[derive(Clone, Copy)]
pub struct Counted {
    pub at: usize,
    pub number: u64,
}
