//! What typing leaves as it was: laws, and no code.
#![tactic(auto)]

pub mod laws;
