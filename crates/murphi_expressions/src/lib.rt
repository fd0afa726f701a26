//! Reading expressions, the places in them, and the types of their bound variables: one small function a form.
#![tactic(auto)]

pub mod build;
pub mod expression;
pub mod names;
pub mod reader;
pub mod refusal;
pub mod sign;
pub mod step;
