// Calls, answers and refusals as people read them.
ghost use Rattle.std.specs.Prelude.{Some};
ghost use Rattle.sessions.specs.Texts.{call_text, answer_text, fault_text};

use crate::answer::Answer;
use crate::call::Call;
use crate::fault::SessionFault;
use std::error::Error;
use std::fmt;

impl fmt::Display for Call {
    ghost output = { λ c. Some (call_text c) };

    fn fmt<W: fmt::Write>(&self, f: &mut fmt::Formatter<W>) -> fmt::Result {
        match self {
            Call::Strike { x, v } => write!(f, "strike x{x} {v}"),
            Call::Narrow { x, lo, hi } => write!(f, "narrow x{x} to {lo}..{hi}"),
            Call::Settle => f.write_str("settle"),
            Call::Save => f.write_str("save"),
            Call::Restore => f.write_str("restore"),
        }
    }
}

impl fmt::Display for Answer {
    ghost output = { λ a. Some (answer_text a) };

    fn fmt<W: fmt::Write>(&self, f: &mut fmt::Formatter<W>) -> fmt::Result {
        match self {
            Answer::Done => f.write_str("ok"),
            Answer::Emptied => f.write_str("failed"),
            Answer::Settled { runs, removed } => {
                write!(f, "settled, {runs} runs, {removed} removed")
            }
            Answer::Failed { rule, runs } => write!(f, "failed at rule {rule}, {runs} runs"),
            Answer::Refused(fault) => write!(f, "refused {}", fault.number()),
        }
    }
}

impl fmt::Display for SessionFault {
    ghost output = { λ e. Some (fault_text e) };

    fn fmt<W: fmt::Write>(&self, f: &mut fmt::Formatter<W>) -> fmt::Result {
        match self {
            SessionFault::Variables => f.write_str("the store has no variable"),
            SessionFault::Rules => f.write_str("the bank has more than 256 rules"),
            SessionFault::Rule { rule, fault } => write!(f, "rule {rule} does not fit: {fault}"),
            SessionFault::Variable => f.write_str("the variable is not there"),
            SessionFault::Value => f.write_str("a number is no value, or lo is greater than hi"),
            SessionFault::Empty => f.write_str("a domain is empty at the beginning"),
            SessionFault::Failed => f.write_str("the session stands failed"),
            SessionFault::Stirred => f.write_str("the session stands stirred"),
            SessionFault::NoSave => f.write_str("the session has no save of its own"),
            SessionFault::Store(fault) => write!(f, "{fault}"),
        }
    }
}

impl Error for SessionFault {}
