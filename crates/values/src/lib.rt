// Values, and the table that holds each of them once.
#![tactic(auto)]

mod checks;
mod cut;
mod examples;
mod find;
mod names;
mod nodes;
mod parts;
mod push;
mod reads;
mod store;
mod table;

pub use crate::examples::examples_hold;
pub use crate::names::{is_name, is_name_byte, order, same};
pub use crate::parts::{
    Content, GREATEST_HEIGHT, LONGEST_TEXT, MOST_MEMBERS, Member, Number, Unentered,
};
pub use crate::store::Table;
