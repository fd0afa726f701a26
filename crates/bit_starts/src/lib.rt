//! Starts of the abstract machine in bits: what a start may leave under a pattern, as one edge.
#![tactic(auto)]

pub mod blank;
pub mod leave;
