// Kinds of tokens and refusals of models, for a reader over the scanner.
#![tactic(auto)]

mod kinds;
mod reading;
mod refusals;
mod starts;

pub use crate::reading::Reading;
pub use crate::refusals::{Refusal, Rule};
pub use crate::starts::{Start, Way};
