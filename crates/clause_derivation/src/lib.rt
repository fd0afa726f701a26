//! Resolution derivations: logs of chains, and the check that each chain derives its result.
#![tactic(auto)]

pub mod chain;
mod checking;
pub mod derivation;
mod marking;
pub mod marks;
mod numbering;
pub mod trimming;

pub use chain::{Chain, Log, Resolve, Steps};
pub use derivation::{check, check_under};
pub use marks::Marks;
pub use trimming::trim;
