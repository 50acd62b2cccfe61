// A rule left no table: its number, and the runs made, this one counted.
#[derive(Clone, Copy, PartialEq, Eq, Debug)]
pub struct Failure {
    pub rule: usize,
    pub runs: usize,
}
