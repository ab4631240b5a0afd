// The tokens of a model, one after the other.
#![tactic(auto)]

mod bytes;
mod fronts;
mod runs;
mod scan;
mod scanner;
mod tokens;

pub use crate::bytes::escaped_byte;
pub use crate::scanner::Scanner;
pub use crate::tokens::{Next, NoToken, Token};
