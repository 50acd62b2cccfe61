// The numbers of the refusals, how a store's refusal goes up, and how a save or a restore is answered.
ghost use Rattle.std.specs.Prelude.{◌≡◌};
ghost use Rattle.sessions.specs.Refusals.{number_of};
ghost use Rattle.sessions.specs.declared.fault.SessionFault.TheVariants.{Store};
ghost use Rattle.sessions.specs.declared.answer.Answer.TheVariants.{Done};

use crate::answer::Answer;
use crate::fault::SessionFault;
use tables::StoreFault;

impl SessionFault {
    // The number by which users know the refusal; a `From` for u8 would only say the same under another name.
    pub fn number(self) -> u8
        ensures { result ≡ number_of self }
    {
        match self {
            SessionFault::Variables => 5,
            SessionFault::Rules => 5,
            SessionFault::Rule { rule: _, fault } => fault.number(),
            SessionFault::Variable => 6,
            SessionFault::Value => 7,
            SessionFault::Empty => 9,
            SessionFault::Failed => 10,
            SessionFault::Stirred => 11,
            SessionFault::NoSave => 13,
            SessionFault::Store(fault) => fault.number(),
        }
    }
}

// A store's refusal passes upward whole.
impl From<StoreFault> for SessionFault {
    ghost from_gives = { λ e r. r ≡ Store e };

    fn from(refusal: StoreFault) -> Self {
        SessionFault::Store(refusal)
    }
}

// A call that was performed and has nothing to tell.
impl From<()> for Answer {
    ghost from_gives = { λ _ a. a ≡ Done };

    fn from(_done: ()) -> Self {
        Answer::Done
    }
}
