//! Starts and steps of the abstract machine as circuits: each one edge over the inputs of the layout.
#![tactic(auto)]

pub mod choosing;
pub mod gates;
pub mod starts;
pub mod steps;
pub mod window;
