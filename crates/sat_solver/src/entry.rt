//! The entries of a trail: literals that were made true.

use crate::origin::Origin;
use clause_core::Lit;

/// A literal that was made true, and why.
#[derive(Clone, Copy, Debug, PartialEq, Eq)]
pub struct Entry {
    /// The true literal.
    pub lit: Lit,
    /// The clause that forced it, all of whose other literals were false. A decision has none.
    pub reason: Option<Origin>,
}
