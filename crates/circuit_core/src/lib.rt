//! Circuits: and-inverter graphs, whose edges have a truth value under each assignment of the inputs.
//!
//! A circuit grows by inputs and gates, and no call changes what an edge made before means: every
//! contract says the value of the new edge, and that the old ones keep theirs.
#![tactic(auto)]

pub mod choice;
pub mod circuit;
pub mod edge;
mod folding;
pub mod laws;
pub mod memory;

pub use circuit::Circuit;
pub use edge::{Edge, Gate, not};
pub use memory::Memory;
