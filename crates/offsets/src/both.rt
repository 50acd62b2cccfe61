// The rows that the two variables of an offset keep.
use tables::Row;

#[derive(Clone, Copy, PartialEq, Eq, Debug)]
pub struct Both {
    pub(crate) x: Row,
    pub(crate) y: Row,
}
