// Where a line ends.
ghost use Rattle.std.specs.Prelude.{◌≡◌};
ghost use Rattle.fields.specs.Cut.{next_of};
ghost use Rattle.input_line.specs.Meaning.{line_feed};

use fields::next;

// Where the line that begins at `from` ends: at its line feed, or with the input.
pub fn line_end(input: &[u8], from: usize) -> usize
    ensures { result ≡ next_of line_feed input.now from }
{
    next(input, from, b'\n')
}
