// Digits that begin the decimal of some number of a range.
ghost use Rattle.std.specs.Prelude.{◌<◌, ◌≤◌, ◌≡◌, length};
ghost use Rattle.decimals.specs.Decimal.{decimal};
ghost use Rattle.words.specs.Prefix.{Longest};
ghost use Rattle.words.specs.Vocabulary.{DecimalFrom};
ghost use Rattle.words.specs.Walk.{Reaches};

// Whether the digits of `number` begin the decimal of a number from `least` to `most`. Below `least` they
// lack a digit at least, and a number is within the limits for some last digit where its tenth part is
// within theirs.
fn reaches(number: u64, least: u64, most: u64) -> bool
    requires { (0 < number) × (least ≤ most) }
    ensures { Reaches least most number result }
{
    if number < least {
        return reaches(number, least / 10, most / 10);
    }
    number <= most
}

// How many of the digits of `number`, which are so many, begin the decimal of a number from `least`, which
// is not 0, to `most`.
pub fn longest_reaching(digits: usize, number: u64, least: u64, most: u64) -> usize
    requires digits_value { digits ≡ length (decimal number) }
    requires least_nonzero { (0 < least) × (least ≤ most) }
    ensures { Longest (DecimalFrom least most) (decimal number) result }
{
    if number == 0 {
        return 0;
    }
    if reaches(number, least, most) {
        return digits;
    }
    if number < 10 {
        return 0;
    }
    longest_reaching(digits - 1, number / 10, least, most)
}
