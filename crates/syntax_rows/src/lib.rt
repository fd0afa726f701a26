//! Rows of the readers of the whole language and of files of lemmas and of flows: texts, and what is read of each, worked out by hand.
#![tactic(auto)]

#[cfg(test)]
mod answers;
#[cfg(test)]
mod expressions;
#[cfg(test)]
mod forms;
#[cfg(test)]
mod jobs;
#[cfg(test)]
mod long;
#[cfg(test)]
mod nesting;
#[cfg(test)]
mod prefixes;
#[cfg(test)]
mod samples;
#[cfg(test)]
mod trees;
