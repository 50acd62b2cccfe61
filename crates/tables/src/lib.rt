// Tables of finite domains: their rows, the interfaces of a store, and what a store refuses.
#![tactic(auto)]

pub mod domains;
pub mod fault;
pub mod kept;
pub mod refusals;
pub mod rows;

pub use domains::{Domains, Levels};
pub use fault::StoreFault;
pub use kept::Kept;
pub use rows::Row;
