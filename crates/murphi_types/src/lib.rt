//! Typing: the typed part that each part of a protocol as it is written gives, or the first fault that
//! it has. The definition stands in `specs/`.
#![tactic(auto)]

pub mod fault;
pub mod laws;
pub mod names;
pub mod scope;
