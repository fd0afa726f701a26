//! Values and members of kinds as they are printed.
#![tactic(auto, using(crate::proofs::NameEquations::naming))]

pub mod doubtful;
pub mod values;
