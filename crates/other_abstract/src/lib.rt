//! The abstract machine of a machine of terms: m nodes are kept, and one other stands for all the
//! rest. It covers the machine for every number of nodes from m up.
#![tactic(auto)]

pub mod combine;
mod deciding;
pub mod evaluate;
pub mod laws;
pub mod lead;
pub mod machine;
pub mod making;
pub mod node;
pub mod patterns;
pub mod place;
pub mod places;
pub mod read;
pub mod scene;
pub mod set;
pub mod starting;
pub mod state;
mod stepping;
pub mod value;
