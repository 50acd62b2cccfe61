// What `keep` did to a domain: two answers at once, of which neither goes with a value.
#[derive(Clone, Copy, PartialEq, Eq, Debug)]
pub struct Kept {
    // it lost a value
    pub smaller: bool,
    // it has no value now
    pub empty: bool,
}
