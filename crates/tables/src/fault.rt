// Why a store refuses.
#[derive(Clone, Copy, PartialEq, Eq, Debug)]
pub enum StoreFault {
    // the number of variables, the greatest depth or the memory is outside its limits: 5
    Limits,
    // the greatest depth is reached: 12
    Full,
    // no table is saved: 13
    NoSave,
}
