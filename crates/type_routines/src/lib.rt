//! Typing of routines, and of all declarations of a text. The definition stands in `murphi_types`.
#![tactic(auto)]

pub mod formals;
pub mod routines;
pub mod state;
pub mod texts;
