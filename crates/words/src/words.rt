// The words that a text is read by. A walk goes on from where the word before ended, and stops for
// good where no accepted text goes on.
ghost use Rattle.std.specs.Prelude.{◌≡◌, ◌+◌, ◌^◌, ◌<◌, ◌≤◌, length};
ghost use Rattle.words.specs.Vocabulary.{Word, Digest, Residues};
ghost use Rattle.words.specs.Walk.{walk_of, counted_walk, number_of, Onward, Counts};

use super::range::longest_reaching;
use super::{Counted, Stopped, Walk};
use alphabets::{DIGEST_LENGTH, first_foreign, first_outside_base64url};
use decimals::leading_digits;
use stretch::common_prefix;

// So many bytes on from there: past a whole word, or stopped in one.
fn onward(from: usize, count: usize, whole: bool) -> Walk
    requires { from + count < 2 ^ 64 }
    ensures { walk_of result ≡ record { at = from + count; on = whole } }
{
    let at = from + count;
    if whole { Ok(at) } else { Err(Stopped { at }) }
}

// Past one word.
pub fn past_word(text: &[u8], a: Walk, word: &[u8]) -> Walk
    requires { (walk_of a).at ≤ length text.now }
    ensures { Onward (Word word.now) text.now (walk_of a) (walk_of result) }
{
    let from = a?;
    let n = common_prefix(word, &text[from..]);
    onward(from, n, n == word.len())
}

// Past the characters of a digest text.
pub fn past_digest(text: &[u8], a: Walk) -> Walk
    requires { (walk_of a).at ≤ length text.now }
    ensures { Onward Digest text.now (walk_of a) (walk_of result) }
{
    let from = a?;
    let to = from + DIGEST_LENGTH.min(text.len() - from);
    let n = first_outside_base64url(&text[from..to]);
    onward(from, n, n == DIGEST_LENGTH)
}

// Past the residues that stand there, at most so many.
pub fn past_residues(text: &[u8], a: Walk, most: usize) -> Walk
    requires { (walk_of a).at ≤ length text.now }
    ensures { Onward (Residues most) text.now (walk_of a) (walk_of result) }
{
    let from = a?;
    let to = from + most.min(text.len() - from);
    let n = first_foreign(&text[from..to]);
    onward(from, n, true)
}

// Past the decimal of a number from `least` to `most`.
pub fn past_decimal(text: &[u8], a: Walk, least: u64, most: u64) -> Result<Counted, Stopped>
    requires at_in_bounds { (walk_of a).at ≤ length text.now }
    requires least_le_most { least ≤ most }
    ensures { Counts least most text.now (walk_of a) (counted_walk result) (number_of result) }
{
    let from = a?;
    let digits = leading_digits(&text[from..], most);
    let n = digits.length;
    let number = digits.number;
    if n == 0 {
        return Err(Stopped { at: from });
    }
    if number < least {
        let reached = longest_reaching(n, number, least, most);
        return Err(Stopped { at: from + reached });
    }
    Ok(Counted {
        at: from + n,
        number,
    })
}
