//! One machine of terms for every number of nodes: what the statements of a typed protocol do, as terms
//! over the state before them. The translation is a definition (`specs/`); what holds of it stands in
//! `laws`.
#![tactic(auto)]

pub mod laws;
