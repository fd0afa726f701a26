//! Circuits as formulas in conjunctive normal form, and the systems of states that such formulas give.
//!
//! A formula has the inputs of its circuit as its first variables. Each assignment of them extends to
//! exactly one that satisfies it, and there the literals of the roots have the roots' values.
#![tactic(auto)]

mod clauses;
mod draft;
pub mod emission;
mod reach;
pub mod system;

pub use emission::{Emitted, emit};
pub use system::BitSystem;
