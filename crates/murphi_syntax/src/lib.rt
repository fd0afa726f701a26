//! From the bytes of a text to the tree that they spell.
#![tactic(auto)]

mod declaration;
mod expr;
mod item;
mod protocol;
mod reader;
mod scope;
mod statement;
mod step;

pub use protocol::{FlatStop, flat, one_flat};
