//! Paths of an abstract machine: what they are, and whether the machine allows them.
#![tactic(auto, using(crate::proofs::PathLemmas::paths))]

pub mod laws;
pub mod path;
mod replaying;

pub use path::{Path, ReplayEnd};
pub use replaying::replay;
