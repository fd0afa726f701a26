//! The abstract machine.

use lemma_strengthen::formula::Formula;
use sqlite_items::Items;
use std::alloc::Global;
use term_core::machine::TermMachine;

/// The abstract machine of a machine of terms: the formulas that are assumed before a step and checked
/// after it, and how many nodes are kept. `AbstractMachine::make` makes it.
#[derive(Drop)]
pub struct AbstractMachine {
    pub(crate) machine: TermMachine,
    pub(crate) formulas: Items<Formula>,
    pub(crate) kept: u8,
    pub(crate) alloc: Global,
}
