//! The terms and demands that the translation of statements is made of. Each function computes what a word of
//! the translation defines.
#![tactic(auto)]

pub mod build;
pub mod condition;
pub mod demand;
pub mod dropped;
pub mod values;
