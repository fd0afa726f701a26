//! The node type of a text. The definition stands in `murphi_types`.
#![tactic(auto)]

pub mod node;
