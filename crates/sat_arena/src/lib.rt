//! A store of clauses for a solver: each clause has an id, and two of its literals are watched.
//!
//! A clause is watched at its first two literals. To each literal there is a list of the clauses
//! that are watched at it, so a solver that makes a literal false looks at those clauses alone.
//! Clauses may be removed, and `compact` gives those that are left new ids without gaps.
#![tactic(auto)]

pub mod arena;
mod compacting;
pub mod id;
mod slot;
mod watch_list;
mod watching;

pub use arena::Arena;
pub use id::ClauseId;
