// Checking a tree file, and showing its value.
#![tactic(auto)]

mod answers;
mod calls;
mod desk;

pub use crate::answers::Unshown;
pub use crate::desk::Checker;
