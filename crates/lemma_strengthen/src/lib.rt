//! Formulas: what a machine's pieces say of all nodes, as one prefix of node variables over a body, and
//! the instances of a body over the nodes of a window.
#![tactic(auto)]

pub mod formula;
pub mod instance;
pub mod laws;
pub mod normal;
mod open;
