//! How far a script was read.

use crate::refusal::Line;
use murphi_ast::token::Span;
use sqlite_items::Items;
use term_core::value::Value;

/// What may come next. `Signed` has the place of the `-` that was read.
#[derive(Debug, Clone, Copy, PartialEq, Eq, Drop)]
pub(crate) enum Phase {
    /// The word `start`.
    Opening,
    /// A title.
    Naming,
    /// A value, or the sign at the end of the line.
    Giving,
    /// The number behind a `-`.
    Signed(Span),
    /// The word `fire`, or the end of the text.
    Between,
    /// Nothing.
    Done,
}

/// What was read: whole lines, and of the next one whether it fires a rule, its number and its values so far.
#[derive(Drop)]
pub(crate) struct Progress {
    pub(crate) phase: Phase,
    pub(crate) firing: bool,
    pub(crate) which: usize,
    pub(crate) given: Items<Value>,
    pub(crate) lines: Items<Line>,
}

/// Why reading stopped: at a place, or for want of memory.
#[derive(Debug, Clone, Copy, PartialEq, Eq, Drop)]
pub(crate) enum Halt {
    Wrong(Span),
    Memory,
}
