// Listing a value of the table into a lent buffer.
#![tactic(auto)]

mod answers;
mod calls;
mod output;
mod pieces;
mod puts;
mod sink;
mod walk;

pub use crate::answers::Unlisted;
pub use crate::calls::list;
pub use crate::pieces::escaped;
