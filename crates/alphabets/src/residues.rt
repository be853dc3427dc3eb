// Residues, tested a block at a time.
ghost use Rattle.std.specs.Prelude.{◌≡◌, ◌+◌, ◌≤◌, length, drop};
ghost use Rattle.stretch.specs.Class.{every};
ghost use Rattle.alphabets.specs.Alphabets.{letter, residue, foreign};

use super::class::{Class, all_of, first_outside};

// How many bytes are tested before one of them is looked for.
const BLOCK: usize = 1024;

// The letters from A to Z.
pub struct Letter;

impl Class for Letter {
    ghost class = { letter };

    fn contains(b: u8) -> bool {
        b.is_ascii_uppercase()
    }
}

// Letters, the stop and the gap.
pub struct Residue;

impl Class for Residue {
    ghost class = { residue };

    fn contains(b: u8) -> bool {
        is_letter(b) | (b == b'*') | (b == b'-')
    }
}

pub fn is_letter(b: u8) -> bool
    ensures { result ≡ letter b }
{
    Letter::contains(b)
}

// Whether every byte is a residue. Most blocks are letters alone, which takes half the time to test.
fn all_residues(s: &[u8]) -> bool
    ensures { result ≡ every residue s.now }
{
    all_of::<Letter>(s) || all_of::<Residue>(s)
}

// How many bytes lie in the blocks of residues that `s` begins with. Not laid into its callers: there its loops would
// take the registers from the test of a few residues.
#[inline(never)]
fn whole_blocks(s: &[u8]) -> usize
    ensures upper_bound { result ≤ length s.now }
    ensures s_value { foreign s.now ≡ result + foreign (drop result s.now) }
{
    let mut clean = 0;
    for block in s.chunks_exact(BLOCK) {
        if !all_residues(block) {
            return clean;
        }
        clean += block.len();
    }
    clean
}

// The same, and what is left behind the last whole block counts too where it is letters alone.
fn clean_blocks(s: &[u8]) -> usize
    ensures upper_bound { result ≤ length s.now }
    ensures s_value { foreign s.now ≡ result + foreign (drop result s.now) }
{
    let clean = whole_blocks(s);
    if all_of::<Letter>(&s[clean..]) {
        return s.len();
    }
    clean
}

// The offset of the first byte that is no residue, or the length where there is none.
pub fn first_foreign(s: &[u8]) -> usize
    ensures { result ≡ foreign s.now }
{
    let clean = clean_blocks(s);
    clean + first_outside::<Residue>(&s[clean..])
}
