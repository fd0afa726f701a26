//! What each form of expression and statement comes to in the translation, from what its parts come to. Each
//! function computes what a word of the translation defines.
#![tactic(auto)]

pub mod branch;
pub mod operator;
pub mod read;
pub mod site;
pub mod statement;
