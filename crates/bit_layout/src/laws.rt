//! What holds of the layout: laws, each on a function that does nothing.

ghost use Rattle.bit_layout.specs.Laws.{ChoicesAreListed, FittingStatesHaveCodes};
ghost use Rattle.bit_layout.specs.Laws.{CodedStartsAreStarts, StartsHaveCodes, CodedStepsAreSteps, StepsHaveCodes};
ghost use Rattle.bit_layout.specs.Laws.{BadIsViolating, CodedFaultsAreFaults};

use bit_encode::laws::{legal_codes_fit, positions_have_codes};
use other_abstract::laws::{definitions_are_decided, patterns_are_listed, tests_say_what_may_be};
use term_core::laws::{lists_are_in_order, places_are_those_of_the_cells};

/// The choices are the rules with their patterns.
pub fn choices_are_listed()
    ensures { ChoicesAreListed }
{
    patterns_are_listed();
}

/// A state that fits a window has a legal code.
pub fn fitting_states_have_codes()
    ensures { FittingStatesHaveCodes }
{
    lists_are_in_order();
    places_are_those_of_the_cells();
    positions_have_codes();
    tests_say_what_may_be();
}

/// The assignments of starts are those that code a start of the machine, and each start has one.
pub fn coded_starts_are_starts()
    ensures starts { CodedStartsAreStarts }
    ensures codes { StartsHaveCodes }
{
    choices_are_listed();
    legal_codes_fit();
    definitions_are_decided();
    lists_are_in_order();
    positions_have_codes();
    tests_say_what_may_be();
}

/// The assignments of steps are those that code a step of the machine, and each step has one.
pub fn coded_steps_are_steps()
    ensures steps { CodedStepsAreSteps }
    ensures codes { StepsHaveCodes }
{
    choices_are_listed();
    legal_codes_fit();
    definitions_are_decided();
    lists_are_in_order();
    places_are_those_of_the_cells();
    positions_have_codes();
    tests_say_what_may_be();
}

/// A state is bad exactly where it violates a formula, and a coded start faults exactly where a piece of it may be false.
pub fn bad_states_violate()
    ensures states { BadIsViolating }
    ensures faults { CodedFaultsAreFaults }
{
    definitions_are_decided();
}
