// The commands of the program.
#![tactic(auto)]

mod asked;
mod reads;

pub use crate::asked::Command;
pub use crate::reads::{command, line_words};
