//! Total typed terms and the machine that they make up: what stands between a protocol as it is
//! written and the abstract machine. What terms and machines mean stands in `specs/`.
#![tactic(auto)]

pub mod eval;
pub mod frame;
pub mod laws;
pub mod machine;
pub mod state;
pub mod substitute;
pub mod term;
pub mod text;
pub mod value;
pub mod variables;
