//! An incremental solver for formulas in conjunctive normal form, whose log proves what it learns.
//!
//! The search is driven by conflicts: two watched literals, learning at the first unique implication
//! point, backjumping, restarts, and assumptions that are decided first. Each conflict adds one
//! chain of resolution steps to the log. What the answers promise rests on the log and on one pass
//! over the clauses, so the watches, the levels and the order of decisions only have to be fast.
#![tactic(auto)]

mod advance;
mod analyze;
pub mod assumptions;
mod engine;
mod entries;
mod entry;
mod learn;
mod marking;
mod order;
mod origin;
mod propagate;
mod resolvent;
mod scan;
mod search;
pub mod solver;
mod trail;
pub mod verdict;
mod watched;

pub use assumptions::are_consistent;
pub use solver::Solver;
pub use verdict::{Lits, Verdict};
