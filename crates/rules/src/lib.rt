// Rules, the interface of a bank of rules, and two banks joined.
#![tactic(auto)]

pub mod bank;
pub mod fault;
pub mod joined;
pub mod members;
pub mod ran;
pub mod refusals;
pub mod sets;
mod side;

pub use bank::{Bank, MOST};
pub use fault::RuleFault;
pub use joined::Joined;
pub use ran::{Failed, Ran};
