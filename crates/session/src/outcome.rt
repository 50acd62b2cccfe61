// What the calls of a session answer where they are granted. None of the cases is an error to hand on, so these are enums of their own.
ghost use Rattle.std.specs.Prelude.{◌≡◌, Ok};
ghost use Rattle.session.specs.Answers.{answer_of_order, answer_of_settle};

use sessions::Answer;

// An order was performed.
#[derive(Clone, Copy, PartialEq, Eq, Debug)]
pub enum Ordered {
    // its variable has a value left
    Done,
    // its variable has none left, and the session stands failed
    Emptied,
}

// The waiting rules were run.
#[derive(Clone, Copy, PartialEq, Eq, Debug)]
pub enum Propagated {
    // until none waited: the runs made and the values removed
    Settled { runs: usize, removed: usize },
    // until this rule left no table: its number, and the runs made, this one counted
    Failed { rule: usize, runs: usize },
}

impl From<Ordered> for Answer {
    ghost from_gives = { λ o a. a ≡ answer_of_order (Ok o) };

    fn from(done: Ordered) -> Self {
        match done {
            Ordered::Done => Answer::Done,
            Ordered::Emptied => Answer::Emptied,
        }
    }
}

impl From<Propagated> for Answer {
    ghost from_gives = { λ o a. a ≡ answer_of_settle (Ok o) };

    fn from(done: Propagated) -> Self {
        match done {
            Propagated::Settled { runs, removed } => Answer::Settled { runs, removed },
            Propagated::Failed { rule, runs } => Answer::Failed { rule, runs },
        }
    }
}
