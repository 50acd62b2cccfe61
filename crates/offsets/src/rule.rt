// A rule that one variable is another one and a constant: x = y + c.
#[derive(Clone, Copy, PartialEq, Eq, Debug)]
pub struct Offset {
    pub x: usize,
    pub y: usize,
    pub c: i32,
}
