//! The program: its words, what it answers, its report, and the one call `run` that does all of it.
#![tactic(auto)]

mod lines;
pub mod outcome;
mod program;
pub mod report;
pub mod request;
pub mod table;
mod titles;
pub mod words;

pub use program::run;
