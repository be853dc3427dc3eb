// Decimals: the digits of the tenth part, then the last digit.
ghost use Rattle.std.specs.Prelude.{◌≡◌, ◌+◌, ◌≤◌, ◌<◌, length};
ghost use Rattle.stretch.specs.Over.{over, Wrote};
ghost use Rattle.decimals.specs.Decimal.{digit, decimal};
ghost use Rattle.decimals.specs.Leads.{Leads};
ghost use Rattle.decimals.specs.Number.{number_within, number_of};

use super::Leading;

fn character(d: u64) -> u8
    requires { d < 10 }
    ensures { result ≡ digit d }
{
    b'0' + d as u8
}

// How long the decimal of `n` is.
pub fn decimal_length(n: u64) -> usize
    ensures { result ≡ length (decimal n) }
{
    if n < 10 {
        return 1;
    }
    decimal_length(n / 10) + 1
}

// Lays the decimal of `n` over the front of `out`, and answers how long it is.
pub fn write_decimal(out: &mut [u8], n: u64) -> usize
    requires { length (decimal n) ≤ length out.old }
    ensures { (result ≡ length (decimal n)) × (out.new ≡ over out.old 0 (decimal n)) }
{
    if n < 10 {
        out[0] = character(n);
        return 1;
    }
    let at = write_decimal(out, n / 10);
    out[at] = character(n % 10);
    at + 1
}

// Lays the decimal of `n` over `out` from `place` on, and answers the place after it.
pub fn put_decimal(out: &mut [u8], place: usize, n: u64) -> usize
    requires { place + length (decimal n) ≤ length out.old }
    ensures { Wrote out.old place (decimal n) out.new result }
{
    place + write_decimal(&mut out[place..], n)
}

// The digits that `s` begins with, as far as they are those of a number up to `most`.
pub fn leading_digits(s: &[u8], most: u64) -> Leading
    ensures { Leads most s.now result.length result.number }
{
    let mut number = 0;
    for (length, &c) in s.iter().enumerate() {
        if !c.is_ascii_digit() {
            return Leading { length, number };
        }
        if 0 < length && number == 0 {
            return Leading { length, number };
        }
        let d = u64::from(c - b'0');
        if most < d || (most - d) / 10 < number {
            return Leading { length, number };
        }
        number = number * 10 + d;
    }
    let length = s.len();
    Leading { length, number }
}

// The number from `least` to `most` of which `s` is the decimal.
pub fn read_decimal_within(s: &[u8], least: u64, most: u64) -> Option<u64>
    ensures { result ≡ number_within least most s.now }
{
    let digits = leading_digits(s, most);
    if digits.length == 0 || digits.length < s.len() || digits.number < least {
        return None;
    }
    Some(digits.number)
}

// The number below 2 to the 64th of which `s` is the decimal.
pub fn read_decimal(s: &[u8]) -> Option<u64>
    ensures { result ≡ number_of s.now }
{
    read_decimal_within(s, 0, u64::MAX)
}
