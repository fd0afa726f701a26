//! Paths and what they come to.

use other_abstract::state::{AbsState, AbsStep, Pattern};
use sqlite_items::Items;

/// A path: a start by its number, the pattern under which it starts, the kept state that it leaves, and
/// the steps after it in order.
#[derive(Drop)]
pub struct Path {
    pub start: u32,
    pub pattern: Pattern,
    pub first: AbsState,
    pub steps: Items<AbsStep>,
}

/// What a path comes to on a machine.
#[derive(Drop)]
pub enum ReplayEnd {
    /// The machine does not allow this step, and allows all before it. The start is step 0.
    Broken { step: u32 },
    /// The machine allows the path, and its last state violates this formula, by its number among the
    /// machine's formulas, and none before it. The number of formulas stands for a fault of the path's
    /// own start.
    Violates(u32),
    /// The machine allows the path, and its last state violates nothing.
    Clean,
}
