//! What the law of the translation excludes: laws, each on a function that does nothing.

ghost use Rattle.rule_inline.specs.Presents.{Presents};
ghost use Rattle.translation_rows.specs.Formals.{by_value, read_anew};
ghost use Rattle.translation_rows.specs.Places.{by_place, found_anew};
ghost use Rattle.translation_rows.specs.Writes.{in_turn, read_before};

/// A formal by value has what its argument was at the call. A machine that reads the argument anew, after
/// the body wrote to it, does not present the protocol.
pub fn formals_are_not_read_anew()
    ensures { Presents by_value read_anew → ⊥ }
{}

/// A `var` formal stands for the place that its argument was at the call. A machine that works its index out
/// anew, after the body wrote to it, does not present the protocol.
pub fn places_are_not_found_anew()
    ensures { Presents by_place found_anew → ⊥ }
{}

/// An index is read in the state that the statements before it left. A machine that reads it in the state before
/// the first of them does not present the protocol.
pub fn indices_are_not_read_before()
    ensures { Presents in_turn read_before → ⊥ }
{}
