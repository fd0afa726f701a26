//! The ids of clauses in an arena.

/// The id of a clause in one arena: the place at which it is kept. It names its clause until that
/// is removed, or until `compact` gives out new places.
#[derive(Clone, Copy, Debug, PartialEq, Eq)]
pub struct ClauseId {
    /// The place.
    pub place: u32,
}
