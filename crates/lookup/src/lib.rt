// What stands at a path in a value of the table.
#![tactic(auto)]

mod paths;

pub use crate::paths::find;
