// What a line says.
ghost use Rattle.std.specs.Prelude.{◌≡◌, ◌<◌, ◌≤◌, length, drop};
ghost use Rattle.input_line.specs.Meaning.{replacement_of, ReadsLine};
ghost use Rattle.input_line.specs.Inner.{Fields};

use super::Line;
use decimals::read_decimal;
use fields::next;

// Where the replacement begins that the last field of the line, from `third` on, stands for.
fn replacement_from(line: &[u8], third: usize) -> usize
    requires { third < length line.now }
    ensures { (drop result line.now ≡ replacement_of (drop third line.now))
        × (result ≤ length line.now) }
{
    if line[third] != b'.' {
        return third;
    }
    if third + 1 < line.len() {
        return third;
    }
    line.len()
}

// What a line says whose first two fields end at `first` and `second`.
fn read_fields(line: &[u8], first: usize, second: usize) -> Option<Line>
    requires { Fields line.now first second }
    ensures { ReadsLine line.now result }
{
    let third = second + 1;
    if third == line.len() {
        return None;
    }
    if next(line, third, b' ') < line.len() {
        return None;
    }
    let start = read_decimal(&line[0..first])?;
    let end = read_decimal(&line[first + 1..second])?;
    let from = replacement_from(line, third);
    Some(Line { start, end, from })
}

// What a line says: three fields that single spaces part, or nothing.
pub fn read_line(line: &[u8]) -> Option<Line>
    ensures { ReadsLine line.now result }
{
    let first = next(line, 0, b' ');
    if first == line.len() {
        return None;
    }
    let second = next(line, first + 1, b' ');
    if second == line.len() {
        return None;
    }
    read_fields(line, first, second)
}
