// The language of models: its tokens, its grammar, its refusals, and what is proved of them.
#![tactic(auto)]

mod examples;
mod laws;

pub use crate::examples::examples_hold;
pub use crate::laws::{
    functions_stand_alone, refusals_are_told, texts_tell_functions, tokens_are_parts,
};
