//! Reading protocols: declarations, routines, statements and items, one small function a form.
#![tactic(auto)]

mod begins;
mod declaration;
mod item;
mod list;
mod read;
mod routine;
mod statement;
mod title;
mod whole;

pub use read::{one_protocol, protocol};
