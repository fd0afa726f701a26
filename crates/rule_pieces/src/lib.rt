//! What stands around the walk of the translation down the trees: the top of an instance, the entry of a routine's
//! body, and the pieces of what a body demands.
#![tactic(auto)]

pub mod entry;
pub mod piece;
pub mod top;
