//! Where the bits of starts and steps of the abstract machine stand, and what an assignment of them codes.
#![tactic(auto)]

pub mod choice;
pub mod laws;
pub mod size;
