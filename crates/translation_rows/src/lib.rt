//! Rows of the translation: machines that a wrong translation would give, and which the law excludes.
#![tactic(auto)]

pub mod laws;
