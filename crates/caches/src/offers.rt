// What is offered to a cache.
use crate::keys::Key;
use crate::questions::Answered;
use values::Number;

// An entry that a cache may keep or not: what was made under the key, and its answers.
#[derive(Clone, Copy)]
pub struct Offer<'a> {
    pub key: Key,
    pub product: Number,
    pub answers: &'a [Answered],
}
