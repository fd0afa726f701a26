//! Whether the states of a system that are not bad are kept by its steps.
//!
//! `one_step` asks a solver two questions, one over the starts and one over the steps. Where neither
//! can be satisfied, the logs of the solver make a certificate without clauses.
#![tactic(auto)]

pub mod induction;
pub mod refutation;

pub use induction::{OneStep, one_step};
pub use refutation::{Refuted, refute};
