// What a run keeps of earlier runs: caches, and how they are put together.
#![tactic(auto)]

mod beside;
mod caches;
mod instances;
mod keeper;
mod keeper_slots;
mod keys;
mod looking;
mod none;
mod offers;
mod pair;
mod paths;
mod places;
mod questions;
mod ring;
mod ring_slots;
mod rooms;

pub use crate::beside::{Beside, Single};
pub use crate::caches::Cache;
pub use crate::instances::{
    first_in_keeper, first_in_none, first_in_ring, first_in_three, first_in_two,
};
pub use crate::keeper::Keeper;
pub use crate::keys::Key;
pub use crate::looking::first_product;
pub use crate::none::NoCache;
pub use crate::offers::Offer;
pub use crate::pair::{Pair, recall};
pub use crate::paths::Path;
pub use crate::places::{Place, Root};
pub use crate::questions::{
    Answered, Answers, Found, Question, ValueKind, same_found, same_question,
};
pub use crate::ring::Ring;
