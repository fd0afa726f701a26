//! Rows of typing: texts and lemmas that the readers read, and what typing answers, worked out by hand.
#![tactic(auto)]

#[cfg(test)]
mod answers;
#[cfg(test)]
mod constants;
#[cfg(test)]
mod expressions;
#[cfg(test)]
mod lemmas;
#[cfg(test)]
mod limits;
#[cfg(test)]
mod names;
#[cfg(test)]
mod nodes;
#[cfg(test)]
mod protocols;
#[cfg(test)]
mod samples;
#[cfg(test)]
mod statements;
#[cfg(test)]
mod trees;
#[cfg(test)]
mod types;
#[cfg(test)]
mod weights;
