//! What typing gives of designators, calls and types, from what it gives of their parts. The definition stands in
//! `murphi_types`.
#![tactic(auto)]

pub mod calls;
pub mod designators;
pub mod written;
