// What a run of a rule answers.
use crate::sets::Set;

// No table without an empty domain is left.
#[derive(Clone, Copy, PartialEq, Eq, Debug)]
pub struct Failed;

// The variables that got smaller, unless the run failed.
pub type Ran = Result<Set, Failed>;
