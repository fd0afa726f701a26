//! The grammar of protocols as data: the symbols of tokens, the grammar as it is written for people, its
//! left-factored form in which one token decides, and the laws that both say the same.
#![tactic(auto)]

pub mod laws;
pub mod symbol;
