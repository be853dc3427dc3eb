// Letters read as upper case: stretches tested so as they lie in what was lent, and read so where `stretch` compares and
// lays them.
// Crates `vcf_line` and `vcf_form` stand on it.
#![tactic(auto)]

mod compare;
mod letters;
mod reading;

pub use compare::common_prefix_folded;
pub use letters::is_lettered;
pub use reading::UpperCase;
