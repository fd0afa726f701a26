//! What is found of names: a law, on a function that does nothing.

ghost use Rattle.type_names.specs.Laws.{RepeatsAreFound};

/// The names of a scope, declared one by one, have the first fault of the names that are declared twice.
pub fn repeats_are_found()
    ensures { RepeatsAreFound }
{}
