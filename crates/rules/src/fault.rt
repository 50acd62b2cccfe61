// Why a rule does not fit a number of variables.
#[derive(Clone, Copy, PartialEq, Eq, Debug)]
pub enum RuleFault {
    // there is no such rule, or too many: 5
    Count,
    // it names a variable that is not there: 6
    Variable,
    // a constant is outside its range: 7
    Value,
    // a list or a side of a matrix is outside its limits: 8
    Length,
}
