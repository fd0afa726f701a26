//! Rows of the symmetry rules: texts that break one, each with a twin that does not, and what is named, worked out by
//! hand.
#![tactic(auto)]

#[cfg(test)]
mod answers;
#[cfg(test)]
mod calls;
#[cfg(test)]
mod loops;
#[cfg(test)]
mod sizes;
