//! Literals, clauses, formulas in conjunctive normal form, and the assignments that satisfy them.
//!
//! Everything that the solver answers rests on this crate: a satisfying assignment is one by
//! `satisfies`, and a derivation is sound for the assignments that satisfy its formula.
#![tactic(auto)]

pub mod assignment;
pub mod clause;
pub mod cnf;
pub mod literal;
pub mod memory;

pub use assignment::Assignment;
pub use clause::{Clause, contains};
pub use cnf::{Cnf, satisfies};
pub use literal::{Lit, MOST_VARIABLES};
pub use memory::Memory;
