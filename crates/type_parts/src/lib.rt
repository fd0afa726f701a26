//! The single steps of typing: the first of several faults, places, what fits where, names in scope, constants,
//! and what each form makes of its parts. The definition stands in `murphi_types`.
#![tactic(auto)]

pub mod constant;
pub mod context;
pub mod expressions;
pub mod faults;
pub mod fitting;
pub mod judged;
pub mod places;
pub mod types;
pub mod weights;
