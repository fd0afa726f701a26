//! The abstract machine in bits: its first parts.
//!
//! A cell's value is coded by its position in the list of the values that the cell may have, in bits.
//! Whatever a term may be is a set of values with edges of a circuit: the edge of a value is true exactly
//! where the term may have it.
#![tactic(auto)]

pub mod agree;
pub mod cell;
pub mod code;
pub mod combine;
pub mod facts;
pub mod fire;
mod gates;
pub mod laws;
pub mod leads;
pub mod placing;
pub mod read;
pub mod set;
pub mod step;
pub mod tally;
pub mod term;
pub mod values;
pub mod window;
