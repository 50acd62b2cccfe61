// The bank of the rules T[y] = z and T[x][y] = z.
#![tactic(auto)]

pub mod rule;

use filters::Listed;
pub use rule::{Element, Lookup, Matrix};

// A list of these rules that the caller lends, which is a bank once an element is a kind of rule that can be run.
pub type Elements<'a> = Listed<'a, Element<'a>>;
