//! Typing of declarations of constants, types and variables. The definition stands in `murphi_types`.
#![tactic(auto)]

pub mod declare;
pub mod leaves;
pub mod state;
