//! Scripts for the command `run`: the lines that the bytes of one spell for a typed protocol and a number of
//! nodes, or the first place where they spell none.
#![tactic(auto, using(crate::proofs::Found::finding))]

mod phase;
pub mod read;
pub mod refusal;
mod step;
mod titles;
mod value;
