//! What holds of the meaning of every typed protocol: laws, each on a function that does nothing.

ghost use Rattle.murphi_typed.specs.Laws.{StartsLeaveStates, StepsLeadToStates, ReachedAreStates, StatesHaveValues, ValuesFitInBodies, ValuesFitInStates, BodiesKeepTypes, FunctionsGiveResults, CalledBodiesAreTyped, TopBodiesAreTyped, BlankBodiesAreTyped};
ghost use Rattle.murphi_typed.specs.Worked.{ExpressionsAreAsWorked, QuantifiersAreAsWorked, AssignmentsAreAsWorked};
ghost use Rattle.murphi_typed.specs.WorkedBodies.{ChoicesAreAsWorked, CallsAreAsWorked};
ghost use Rattle.murphi_typed.specs.WorkedSteps.{StepsAreAsWorked, CellsAreAsWorked, PrefixesAreAsWorked, TypesAreAsWorked};

/// The worked cases of the meaning come out as they were worked out by hand.
pub fn worked_cases()
    ensures expressions { ExpressionsAreAsWorked }
    ensures quantifiers { QuantifiersAreAsWorked }
    ensures assignments { AssignmentsAreAsWorked }
    ensures choices { ChoicesAreAsWorked }
    ensures calls { CallsAreAsWorked }
    ensures steps { StepsAreAsWorked }
    ensures cells { CellsAreAsWorked }
    ensures prefixes { PrefixesAreAsWorked }
    ensures types { TypesAreAsWorked }
{}

/// In a well-typed protocol a start leaves a state, and a step leads from a state to a state: each has
/// the same cells, and each cell is undefined or has a value of its type.
pub fn steps_keep_the_cells()
    ensures starts { StartsLeaveStates }
    ensures steps { StepsLeadToStates }
    ensures reached { ReachedAreStates }
{}

/// The state that cells make up gives each cell of the list the value that it had: execution goes by
/// variable, fields and indices, and states are lists in the printed order.
pub fn states_have_the_values_of_their_cells()
    ensures { StatesHaveValues }
{}

/// Where a well-typed expression has a value, it is one of its type: in any body that keeps to its
/// types, and so in the guards and formulas of a well-typed protocol in every state.
pub fn expressions_have_values_of_their_types()
    ensures inner { ValuesFitInBodies }
    ensures top { ValuesFitInStates }
{}

/// The bodies of a well-typed protocol keep to their types: those of rules, start states and formulas in
/// every state, and then those of the routines that they call. A body that does leaves every cell within
/// its type.
pub fn bodies_keep_to_their_types()
    ensures cells { BodiesKeepTypes }
    ensures results { FunctionsGiveResults }
    ensures called { CalledBodiesAreTyped }
    ensures top { TopBodiesAreTyped }
    ensures blank { BlankBodiesAreTyped }
{}
