//! Prefix lengths of rules, start states and formulas: how deep they bind nodes, calls opened. Each body is
//! walked once: a routine is summarised, and a call is read off the summary.
#![tactic(auto)]

pub mod depth;
pub mod expressions;
pub mod laws;
pub mod prefixes;
pub mod statements;
