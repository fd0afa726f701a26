//! Names that are declared twice in one scope, and the places where a name is used, in one walk over a text.
#![tactic(auto)]

pub mod expressions;
pub mod formulas;
pub mod gathered;
pub mod laws;
pub mod scope;
pub mod statements;
pub mod texts;
pub mod wholes;
