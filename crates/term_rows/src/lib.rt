//! Rows of terms, of terms in place of variables, of opened formulas, and of states and copies, worked
//! out by hand.
#![tactic(auto)]

#[cfg(test)]
mod both_sides;
#[cfg(test)]
mod copies;
#[cfg(test)]
mod opening;
#[cfg(test)]
mod placing;
#[cfg(test)]
mod spelling;
#[cfg(test)]
mod values;
#[cfg(test)]
mod wrong_kinds;
