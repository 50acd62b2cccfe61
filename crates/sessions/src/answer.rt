// What a session answers: one type for all calls, since answers are listed, compared and printed with the refusals among them.
use crate::fault::SessionFault;

#[derive(Clone, Copy, PartialEq, Eq, Debug)]
pub enum Answer {
    // the order, the save or the restore was performed
    Done,
    // the order was performed and left its variable no value
    Emptied,
    // no rule removes more: the runs made and the values removed
    Settled { runs: usize, removed: usize },
    // a rule left no table: its number, and the runs made, this one counted
    Failed { rule: usize, runs: usize },
    // nothing was done
    Refused(SessionFault),
}
