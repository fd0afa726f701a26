//! What designators stand for in the translation of statements, and the families of a protocol's globals. Each
//! function computes what a word of the translation defines.
#![tactic(auto)]

pub mod entry;
pub mod family;
pub mod first;
pub mod fit;
pub mod laws;
pub mod layer;
pub mod leaf;
pub mod now;
pub mod place;
