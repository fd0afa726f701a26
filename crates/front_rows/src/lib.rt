//! Rows worked out by hand for the crates from bytes to the report: tokens, flat protocols, their check,
//! the files and the output in memory and the real ones, and the top call.
#![tactic(auto)]

#[cfg(test)]
mod calling;
#[cfg(test)]
mod deciding;
#[cfg(test)]
mod outside;
#[cfg(test)]
mod reading;
#[cfg(test)]
mod scanning;
#[cfg(test)]
mod trees;
