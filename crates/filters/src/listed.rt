// The rules of a bank, in their order.
#[derive(Clone, Copy, PartialEq, Eq, Debug)]
pub struct Listed<'a, T> {
    pub(crate) rules: &'a [T],
}
