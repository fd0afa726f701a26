//! What typing gives is well typed: laws, and no code.
#![tactic(auto)]

pub mod laws;
