//! Laws of paths, each on a function that does nothing.
ghost use Rattle.abstract_replay.specs.Laws.{EndsAreSingle};

/// A path comes to one thing.
pub fn ends_are_single()
    ensures { EndsAreSingle }
{}
