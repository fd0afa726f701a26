//! What holds of the meaning of every typed protocol: laws, each on a function that does nothing.

ghost use Rattle.typed_laws.specs.WorkedSamples.{MutexIsAsWorked, GermanIsAsWorked};
ghost use Rattle.typed_laws.specs.Listing.{CellsHavePlaces, ChangesAreListed};
ghost use Rattle.typed_laws.specs.Renamings.{ValuesAreRenamed, EndingsAreRenamed};
ghost use Rattle.typed_laws.specs.Regions.{ReadsGiveValues, ReadsGiveEndings, WritesStayInPlaces, AssignmentsStayInPlaces};

/// What an expression reads, calls opened, determines its value, and what a body reads determines how it
/// ends: in cells that agree on that, an expression has one value or one fault, and a body faults at one
/// place, or ends in one way and leaves cells that agree again.
pub fn reads_determine_what_is_done()
    ensures values { ReadsGiveValues }
    ensures endings { ReadsGiveEndings }
{}

/// A body changes no cell of a variable in scope but those that it writes, calls opened; and a statement with
/// one target changes no cell but those under the place that the target has.
pub fn writes_stay_in_their_places()
    ensures bodies { WritesStayInPlaces }
    ensures targets { AssignmentsStayInPlaces }
{}

/// Where the nodes change places, the value of an expression is that of before with the nodes renamed, and a
/// body leaves the cells of before renamed, calls opened. It is so where no `for` over nodes asks them in an
/// order: there the symmetry rules say when it is so too.
pub fn nodes_may_change_places()
    ensures values { ValuesAreRenamed }
    ensures endings { EndingsAreRenamed }
{}

/// The worked cases of two sample protocols come out as they were worked out by hand.
pub fn worked_cases()
    ensures mutex { MutexIsAsWorked }
    ensures german { GermanIsAsWorked }
{}

/// A state is a list of values in the order in which its cells are printed. No cell is listed twice: the k-th
/// cell is the one whose place is k. Where one cell has another value, the state has it at the place of the
/// cell, and nothing else changes.
pub fn states_are_lists_of_cells()
    ensures places { CellsHavePlaces }
    ensures changes { ChangesAreListed }
{}
