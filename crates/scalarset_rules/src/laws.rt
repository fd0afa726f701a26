//! What holds of the symmetry rules: laws, each on a function that does nothing.

ghost use Rattle.scalarset_rules.specs.Apart.{FunctionsHaveNoLoops, UnbrokenTextsKeepApart};
ghost use Rattle.scalarset_rules.specs.Turns.{LoopEnds, LoopFaults, TurnsGoOn, WritesHaveOnePlace};
ghost use Rattle.scalarset_rules.specs.Worked.{FormsAreAsWorked, LoopsAreAsWorked, CallsAreAsWorked};

/// The worked cases of the rules come out as they were worked out by hand.
pub fn worked_cases()
    ensures forms { FormsAreAsWorked }
    ensures loops { LoopsAreAsWorked }
    ensures calls { CallsAreAsWorked }
{}

/// The turns of a `for` over nodes that breaks no rule do not meet, for every number of nodes, all cells
/// and every loop, calls opened. If one turn from the cells before the loop faults, the loop faults. If
/// none does, the loop ends; a cell of a family that it writes, with node n at the family's place, is what
/// the turn of node n makes of the cells before the loop, and all else is as it was. No turn leaves a
/// routine, and all writes to a family have the family's place.
pub fn turns_do_not_meet()
    ensures faults { LoopFaults }
    ensures ends { LoopEnds }
    ensures on { TurnsGoOn }
    ensures places { WritesHaveOnePlace }
{}

/// In a well-typed text that breaks no rule each loop over nodes meets what `turns_do_not_meet` asks
/// for, wherever it stands: in a rule or a start state, or in a procedure that it calls, with what that
/// call gives to the formals. A function has no such loop.
pub fn unbroken_texts_keep_turns_apart()
    ensures apart { UnbrokenTextsKeepApart }
    ensures functions { FunctionsHaveNoLoops }
{}
