//! Protocols as they are written: tokens, trees and places, with what they mean in `specs/`.
#![tactic(auto)]

pub mod decl;
pub mod expr;
pub mod job;
pub mod laws;
pub mod rule;
pub mod stmt;
pub mod terminal;
pub mod text;
pub mod token;
