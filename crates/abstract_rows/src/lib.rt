//! Rows of abstract machines: worked cases, each worked out by hand and proved by evaluating the
//! definitions. The calls of `other_abstract` answer exactly what these definitions say.
#![tactic(auto)]

ghost use Rattle.abstract_rows.specs.Values.{OnlyIsAsWorked, OthersAreAsWorked, ReadsAreAsWorked};
ghost use Rattle.abstract_rows.specs.Counts.{PatternsAreAsCounted, CellsAreAsCounted, RefusalsAreAsWorked};
ghost use Rattle.abstract_rows.specs.Mutex.{PathIsAsWorked, ShortPathIsNone, ViolationsAreAsWorked};
ghost use Rattle.abstract_rows.specs.Starts.{StartsAreAsWorked, FaultsAreAsWorked};

#[cfg(test)]
mod flag;
#[cfg(test)]
mod paths;

/// What guards and reads may give in windows of one kept node.
pub fn values_are_as_worked()
    ensures only { OnlyIsAsWorked }
    ensures others { OthersAreAsWorked }
    ensures reads { ReadsAreAsWorked }
{}

/// Patterns and cells are as many as were counted, and machines are refused as was worked out.
pub fn counts_are_as_worked()
    ensures patterns { PatternsAreAsCounted }
    ensures cells { CellsAreAsCounted }
    ensures refusals { RefusalsAreAsWorked }
{}

/// A path of a lock into a violation, one step after the other; and the same without one of its
/// firings, which is none.
pub fn path_is_as_worked()
    ensures path { PathIsAsWorked }
    ensures short { ShortPathIsNone }
    ensures violations { ViolationsAreAsWorked }
{}

/// What starts may leave, and when a piece of one may be false.
pub fn starts_are_as_worked()
    ensures starts { StartsAreAsWorked }
    ensures faults { FaultsAreAsWorked }
{}
