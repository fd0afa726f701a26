//! What holds of the translation: laws, each on a function that does nothing.

ghost use Rattle.rule_inline.specs.Laws.{PiecesSayFormula, PiecesWithinPrefix, TranslationIsWhole, TranslationPresents};
ghost use Rattle.rule_inline.specs.Loops.{KeepsRules};
ghost use Rattle.rule_inline.specs.Worked.{CopiesAreAsWorked, LinkIsAsWorked, MutexIsAsWorked, CallsAreAsWorked};
ghost use Rattle.rule_inline.specs.WorkedMore.{MixedAreAsWorked};

use murphi_typed::laws::{
    bodies_keep_to_their_types, expressions_have_values_of_their_types,
    states_have_the_values_of_their_cells, steps_keep_the_cells,
};
use scalarset_rules::laws::{turns_do_not_meet, unbroken_texts_keep_turns_apart};
use term_core::laws::{
    places_are_those_of_the_cells, placing_keeps_values, states_have_a_value_at_each_cell,
};

/// The worked cases of the translation come out as they were worked out by hand.
pub fn worked_cases()
    ensures copies { CopiesAreAsWorked }
    ensures link { LinkIsAsWorked }
    ensures mutex { MutexIsAsWorked }
    ensures calls { CallsAreAsWorked }
    ensures mixed { MixedAreAsWorked }
{}

/// No piece of a formula has more binders than the formula's prefix in the source.
pub fn pieces_within_prefix()
    ensures within { PiecesWithinPrefix }
{}

/// Where a well-typed protocol keeps the symmetry rules, the pieces of each of its formulas, and of each lemma
/// with kinds of its own, are all true for all nodes exactly where the formula holds: in every state, with any
/// number of nodes.
pub fn pieces_say_formulas()
    ensures said { PiecesSayFormula KeepsRules }
{
    places_are_those_of_the_cells();
    placing_keeps_values();
    expressions_have_values_of_their_types();
    bodies_keep_to_their_types();
    unbroken_texts_keep_turns_apart();
}

/// The machine of a well-typed protocol that keeps the symmetry rules presents it. For every number of nodes from
/// 1 up, every rule and start, whatever its parameters are, is one of the machine's, and the machine has no others.
/// In every state some piece is false for some nodes exactly where the guard faults, or is true and the body
/// faults. Where no piece is false, the guards agree, and a true guard leads to exactly the state that the
/// statements leave. The same holds of starts.
pub fn translation_presents()
    ensures presented { TranslationPresents KeepsRules }
{
    places_are_those_of_the_cells();
    states_have_a_value_at_each_cell();
    placing_keeps_values();
    steps_keep_the_cells();
    states_have_the_values_of_their_cells();
    expressions_have_values_of_their_types();
    bodies_keep_to_their_types();
    turns_do_not_meet();
    unbroken_texts_keep_turns_apart();
}

/// The machine of a well-typed protocol is whole, where each rule and start has at most three node parameters and
/// the prefix of its source: updates are of its families and of none twice, node parameters and binders are within
/// the prefix, terms have no variables but those, each read is of a cell, and no constant is a node.
pub fn translation_is_whole()
    ensures whole { TranslationIsWhole }
{
    bodies_keep_to_their_types();
}
