// What a session of a filtering kernel is: its calls and answers, and what holds after every list of calls.
#![tactic(auto)]

pub mod answer;
pub mod call;
pub mod fault;
pub mod refusals;
pub mod standing;
pub mod texts;

pub use answer::Answer;
pub use call::Call;
pub use fault::SessionFault;
pub use standing::Standing;
