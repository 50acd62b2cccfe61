// A rule that a sum is 0: each term is a variable with its sign, and a constant stands beside them.

#[derive(Clone, Copy, PartialEq, Eq, Debug)]
pub enum Sign {
    Plus,
    Minus,
}

#[derive(Clone, Copy, PartialEq, Eq, Debug)]
pub struct Term {
    pub x: usize,
    pub sign: Sign,
}

// The terms and c together are 0. A variable may stand in several terms.
#[derive(Clone, Copy, PartialEq, Eq, Debug)]
pub struct Sum<'a> {
    pub terms: &'a [Term],
    pub c: i32,
}
