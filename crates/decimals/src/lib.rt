// Decimals, written and read. Crates `text`, `words`, `input_line`, `answer_line` and `vcf_line` stand on them.
//
// specs/Decimal.antt has the decimal of a number, specs/Number.antt the number of a text, and
// specs/Leads.antt the digits that a text begins with.
#![tactic(auto)]

mod decimal;

pub use decimal::{
    decimal_length, leading_digits, put_decimal, read_decimal, read_decimal_within, write_decimal,
};

// Digits that begin a text: how many, and their number.
#[derive(Clone, Copy)]
pub struct Leading {
    pub length: usize,
    pub number: u64,
}
