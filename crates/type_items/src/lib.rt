//! Typing of rules, start states and invariants, in the rulesets around them. The definition stands in
//! `murphi_types`.
#![tactic(auto)]

mod added;
mod bodies;
mod gathered;
pub mod items;
pub mod judged;
mod limits;
mod lists;
mod opened;
mod rulesets;
mod steps;
mod titles;
