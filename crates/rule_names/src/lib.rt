//! The kinds and the families of a machine of terms, with the names by which they are printed.
#![tactic(auto, using(crate::proofs::NameEquations::naming))]

pub mod families;
pub mod kinds;
