//! What holds of the abstract machine: laws, each on a function that does nothing.

ghost use Rattle.other_abstract.specs.Laws.{ValuesMayBeHad, TestsSayWhatMayBe, ConjunctionsJoin, DisjunctionsJoin};
ghost use Rattle.other_abstract.specs.Laws.{StepsAreCovered, StartsAreCovered, StartFaultsAreCovered};
ghost use Rattle.other_abstract.specs.Laws.{SafeRunsAreCovered, InductiveRunsAreCovered, NoStartFaulty};
ghost use Rattle.other_abstract.specs.Laws.{PatternsAreListed};
ghost use Rattle.other_abstract.specs.Laws.{StepsAreDecided, StartsAreDecided, ViolationsAreDecided, FaultsAreDecided};

use term_core::laws::{
    lists_are_in_order, places_are_those_of_the_cells, states_have_a_value_at_each_cell,
    updates_make_steps,
};

/// The value of a term, renamed by a choice of nodes, is one that the term may have in the image of
/// the state.
pub fn values_may_be_had()
    ensures { ValuesMayBeHad }
{
    lists_are_in_order();
    places_are_those_of_the_cells();
    states_have_a_value_at_each_cell();
    updates_make_steps();
}

/// What a term may be is computed by a test; and that a conjunction may be true where each part may
/// be, and false where one part may be, is each part's choosing by itself, as is the mirror image of
/// a disjunction.
pub fn tests_say_what_may_be()
    ensures tests { TestsSayWhatMayBe }
    ensures conjunctions { ConjunctionsJoin }
    ensures disjunctions { DisjunctionsJoin }
{}

/// A start or step of N nodes, seen through any choice of kept nodes, is one of the abstract machine;
/// and a start that faults may fault there, seen through a choice that has the nodes of its fault.
pub fn steps_are_covered()
    ensures steps { StepsAreCovered }
    ensures starts { StartsAreCovered }
    ensures faults { StartFaultsAreCovered }
{
    lists_are_in_order();
    places_are_those_of_the_cells();
    states_have_a_value_at_each_cell();
    updates_make_steps();
}

/// Where no abstract run ends in a violation, and also where the machine is inductive, all formulas
/// hold in each reached state and no start faults, for every number of nodes from the kept ones up.
pub fn runs_are_covered()
    ensures safe { SafeRunsAreCovered }
    ensures inductive { InductiveRunsAreCovered }
    ensures starts { NoStartFaulty }
{
    lists_are_in_order();
    places_are_those_of_the_cells();
    states_have_a_value_at_each_cell();
    updates_make_steps();
}

/// The patterns of a rule are listed, each once and no others.
pub fn patterns_are_listed()
    ensures { PatternsAreListed }
{}

/// What a step, a start, a violation and a fault of a start are is computed by tests.
pub fn definitions_are_decided()
    ensures steps { StepsAreDecided }
    ensures starts { StartsAreDecided }
    ensures violations { ViolationsAreDecided }
    ensures faults { FaultsAreDecided }
{
    lists_are_in_order();
    places_are_those_of_the_cells();
}
