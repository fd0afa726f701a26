//! Protocols as they are typed, and what they mean for every number of nodes. Every name of the text
//! is replaced by what it declares, every constant by its number and every type by its parts. The
//! meaning stands in `specs/`.
#![tactic(auto)]

pub mod expr;
pub mod laws;
pub mod prefix;
pub mod protocol;
pub mod shared;
pub mod stmt;
pub mod types;
