// Running a tool's plan over a value of the table.
#![tactic(auto)]

mod faults;
mod fetches;
mod keeps;
mod scope;
mod steps;
mod store;

pub use crate::faults::Fault;
pub use crate::keeps::MAX_ANSWERS;
pub use crate::scope::Scope;
pub use crate::store::ToolRun;
