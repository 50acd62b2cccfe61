// Why a session refuses.
use rules::RuleFault;
use tables::StoreFault;

#[derive(Clone, Copy, PartialEq, Eq, Debug)]
pub enum SessionFault {
    // the store has no variable: 5
    Variables,
    // the bank has more than 256 rules: 5
    Rules,
    // the lowest rule that does not fit, with its own refusal: 5 to 8
    Rule { rule: usize, fault: RuleFault },
    // the variable is not below n: 6
    Variable,
    // a number is no value, or lo is greater than hi: 7
    Value,
    // a starting domain is empty: 9
    Empty,
    // the session stands failed: 10
    Failed,
    // the session stands stirred: 11
    Stirred,
    // the session has no save of its own: 13
    NoSave,
    // the store refuses, by its own number
    Store(StoreFault),
}
