// The numbers of the refusals, and what they and a failure say.
ghost use Rattle.std.specs.Prelude.{◌≡◌, Some, codes};
ghost use Rattle.rules.specs.Banks.{number_of};
ghost use Rattle.rules.specs.Texts.{fault_text};

use crate::fault::RuleFault;
use crate::ran::Failed;
use std::error::Error;
use std::fmt;

impl RuleFault {
    // The number by which users know the refusal; a `From` for u8 would only say the same under another name.
    pub fn number(self) -> u8
        ensures { result ≡ number_of self }
    {
        match self {
            RuleFault::Count => 5,
            RuleFault::Variable => 6,
            RuleFault::Value => 7,
            RuleFault::Length => 8,
        }
    }
}

impl fmt::Display for RuleFault {
    ghost output = { λ e. Some (fault_text e) };

    fn fmt<W: fmt::Write>(&self, f: &mut fmt::Formatter<W>) -> fmt::Result {
        f.write_str(match self {
            RuleFault::Count => "there is no such rule, or there are too many",
            RuleFault::Variable => "a variable is not there",
            RuleFault::Value => "a constant is outside its range",
            RuleFault::Length => "a list or a side of a matrix is outside its limits",
        })
    }
}

impl Error for RuleFault {}

impl fmt::Display for Failed {
    ghost output = { λ _. Some (codes "no table without an empty domain is left") };

    fn fmt<W: fmt::Write>(&self, f: &mut fmt::Formatter<W>) -> fmt::Result {
        f.write_str("no table without an empty domain is left")
    }
}

impl Error for Failed {}
