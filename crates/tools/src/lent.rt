// Tools and toolboxes that reply in memory that the caller lends: no bytes are moved with a reply. These are what a run asks.
pub use crate::beside::SideBySide;
pub use crate::replies::{Reply, Space};
pub use crate::tool::Tool;
pub use crate::toolbox::Toolbox;
