//! Typing of a whole text, and of a lemma beside a typed protocol: the typed part, or why it is refused. The
//! definition stands in `murphi_types`.
#![tactic(auto)]

pub mod formula;
mod known;
pub mod protocol;
pub mod refusal;
