// Entering a tree into the value table.
#![tactic(auto)]

mod answers;
mod calls;
mod leaves;
mod members;
mod singles;

pub use crate::answers::Full;
pub use crate::calls::enter;
