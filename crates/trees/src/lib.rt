// Tree files: their lines, and when a file is accepted.
#![tactic(auto)]

mod answers;
mod checks;
mod escapes;
mod examples;
mod lines;
mod parts;
mod paths;
mod progress;
mod steps;
mod tree;

pub use crate::answers::{Refusal, Refused};
pub use crate::checks::{MAX_FILE, check};
pub use crate::escapes::{Malformed, next_byte};
pub use crate::examples::examples_hold;
pub use crate::parts::{Parts, cut};
pub use crate::paths::{count_names, is_path};
pub use crate::tree::Tree;
