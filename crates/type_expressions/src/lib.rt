//! Typing of expressions, designators, calls and types. The definition stands in `murphi_types`.
#![tactic(auto)]

pub mod constants;
pub mod judge;
mod leaves;
