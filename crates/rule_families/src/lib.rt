//! The families of cells of a protocol's globals, and the instances of its rules. Each function computes what a
//! word of the translation defines.
#![tactic(auto)]

pub mod family;
pub mod key;
