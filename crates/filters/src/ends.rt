// The least and the greatest value of a domain.
#[derive(Clone, Copy, PartialEq, Eq, Debug)]
pub struct Ends {
    pub lo: i32,
    pub hi: i32,
}
