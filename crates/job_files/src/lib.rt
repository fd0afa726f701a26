//! Files of lemmas and of flows: the list that the bytes of one spell, or why they spell none.
#![tactic(auto)]

mod item;
pub mod laws;
pub mod read;
pub mod refusal;
mod text;
mod uses;
mod word;
