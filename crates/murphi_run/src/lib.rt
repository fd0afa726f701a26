//! How the cells of the variables in scope are kept while a body of a typed protocol runs: the number of
//! each cell among those of its variable, and the list of their values.
#![tactic(auto)]

pub mod blocks;
pub mod laws;
pub mod layout;
pub mod place;
pub mod store;
pub mod values;
pub mod variable;
