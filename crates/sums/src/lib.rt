// The bank of the rules that a sum of signed variables and a constant is 0, filtered by bounds.
#![tactic(auto)]

pub mod rule;

use filters::Listed;
pub use rule::{Sign, Sum, Term};

// A list of these rules that the caller lends, which is a bank once a sum is a kind of rule that can be run.
pub type Sums<'a> = Listed<'a, Sum<'a>>;
