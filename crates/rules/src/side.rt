// Which of two joined banks has a rule, and by which number.
#[derive(Clone, Copy, PartialEq, Eq, Debug)]
pub enum Side {
    First(usize),
    Second(usize),
}
