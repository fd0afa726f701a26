//! Certificates that no path of a system of states is bad, and a small checker that accepts them.
//!
//! A certificate has clauses over the bits of a state and a resolution log for each of them, over
//! the starts and over the steps. What is accepted proves that no path is bad, whoever found it.
#![tactic(auto)]

pub mod certificate;
pub mod checking;
pub mod law;
mod owning;
mod refuting;
mod renaming;

pub use certificate::Certificate;
pub use checking::accept;
