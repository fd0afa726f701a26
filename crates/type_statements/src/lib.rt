//! Typing of statements. The definition stands in `murphi_types`.
#![tactic(auto)]

pub mod judge;
pub mod judged;
mod plain;
mod steps;
