// The line that answers a line.
ghost use Rattle.std.specs.Prelude.{◌++◌, ◌∷◌, [], ◌≤◌, length};
ghost use Rattle.stretch.specs.Over.{Wrote};
ghost use Rattle.normal_form.specs.Stretches.{Fits, form_in};
ghost use Rattle.moved.specs.Moved.{moved_in};
ghost use Rattle.input_line.specs.Meaning.{line_feed};
ghost use Rattle.answer_line.specs.Answers.{form_reply, allele_reply, answer_line, Room, front_room};
ghost use Rattle.answer_line.specs.Inner.{head, stop};

use super::write::{put_moves, write_head, write_refused};
use input_line::read_line;
use moved::moved_of;
use normal_form::{Stretches, joined_length};
use normal_form_calls::{locate_clean, write_form};
use stretch::put;

// The front of a form whose replacement has so many residues.
fn form_head(out: &mut [u8], w: Stretches, residues: usize) -> usize
    requires { front_room ≤ length out.old }
    ensures wrote { Wrote out.old 0 (head w.start w.end w.kind (stop residues)) out.new result }
    ensures upper_bound { result ≤ front_room }
{
    let behind: &[u8] = if residues == 0 { b" ." } else { b" " };
    write_head(out, w.start as u64, w.end as u64, w.kind, behind)
}

fn answer_form(reference: &[u8], replacement: &[u8], w: Stretches, out: &mut [u8]) -> usize
    requires fits { Fits reference.now replacement.now w }
    requires room { Room reference.now replacement.now out.old }
    ensures { Wrote out.old 0
        (form_reply (form_in reference.now replacement.now w) (moved_in w) ++ (line_feed ∷ []))
        out.new result }
{
    let at = form_head(out, w, joined_length(w));
    let end = write_form(reference, replacement, w, out, at);
    put_moves(out, end, moved_of(w))
}

fn answer_allele(
    reference: &[u8],
    start: u64,
    end: u64,
    replacement: &[u8],
    out: &mut [u8],
) -> usize
    requires { Room reference.now replacement.now out.old }
    ensures { Wrote out.old 0
        (allele_reply reference.now start end replacement.now ++ (line_feed ∷ []))
        out.new result }
{
    match locate_clean(reference, start, end, replacement) {
        Ok(w) => answer_form(reference, replacement, w, out),
        Err(why) => write_refused(out, u64::from(why.reason)),
    }
}

// Writes the line that answers `line` at the front of `out`, its line feed too, and answers how long it is.
pub fn answer(reference: &[u8], line: &[u8], out: &mut [u8]) -> usize
    requires { Room reference.now line.now out.old }
    ensures { Wrote out.old 0 (answer_line reference.now line.now) out.new result }
{
    let Some(meant) = read_line(line) else {
        return put(out, 0, b"unread\n");
    };
    answer_allele(reference, meant.start, meant.end, &line[meant.from..], out)
}
