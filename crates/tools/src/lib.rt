// Tools by name: what a tool asks for and gives, toolboxes, and the tools `cat` and `first`.
//
// `Tool`, `Toolbox` and `SideBySide`, whose replies have memory of their own, stand in owned.rt and owned_beside.rt; those of `lent`, which reply in
// memory that is lent, in tool.rt, toolbox.rt and beside.rt. A `Tool` is a `lent::Tool` (lending.rt), that is a `lent::Toolbox` (tool.rt), and that is
// a `Toolbox` (owning.rt). The other way it takes `Lending` or `Owning`.
#![tactic(auto)]

mod answers;
mod beside;
mod choosing;
mod examples;
mod joining;
mod lending;
pub mod lent;
mod owned;
mod owned_beside;
mod owning;
mod replies;
mod tool;
mod toolbox;
mod uses;

pub use crate::answers::{Answers, Span};
pub use crate::choosing::First;
pub use crate::examples::{examples_hold, laws_hold};
pub use crate::joining::Cat;
pub use crate::lending::Lending;
pub use crate::owned::{Reply as OwnedReply, Tool, Toolbox};
pub use crate::owned_beside::SideBySide;
pub use crate::owning::Owning;
pub use crate::replies::{Failed, MAX_BYTES, Reply, Space, Text};
pub use crate::tool::Command;
pub use crate::toolbox::Call;
pub use crate::uses::{next_of_both, next_of_cat, next_of_first, next_of_nested, next_path};
