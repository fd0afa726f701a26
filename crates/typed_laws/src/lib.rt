//! What holds of the meaning of typed protocols with what their bodies read and write, and where the nodes
//! change places: laws, and no code.
#![tactic(auto)]

pub mod laws;
