// Rules that look up a number: in a list of constants, and in a matrix of them.

// constants[y] = z, counted from 0.
#[derive(Clone, Copy, PartialEq, Eq, Debug)]
pub struct Lookup<'a> {
    pub y: usize,
    pub z: usize,
    pub constants: &'a [i32],
}

// cells[x][y] = z: the number in row x and column y, both counted from 0; the cells stand row by row, as one list in the caller's memory.
#[derive(Clone, Copy, PartialEq, Eq, Debug)]
pub struct Matrix<'a> {
    pub x: usize,
    pub y: usize,
    pub z: usize,
    pub rows: usize,
    pub columns: usize,
    pub cells: &'a [i32],
}

#[derive(Clone, Copy, PartialEq, Eq, Debug)]
pub enum Element<'a> {
    ByIndex(Lookup<'a>),
    ByCell(Matrix<'a>),
}
