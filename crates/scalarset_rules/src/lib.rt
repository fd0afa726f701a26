//! The symmetry rules: what makes one text speak for every number of nodes. Where no rule is broken,
//! the turns of a `for` over nodes do not meet. The definitions stand in `specs/`.
#![tactic(auto)]

pub mod discipline;
pub mod judge;
pub mod laws;
pub mod nested;
pub mod opened;
pub mod piece;
pub mod place;
pub mod scan;
pub mod shape;
pub mod touch;
pub mod within;
