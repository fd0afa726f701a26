//! What holds of typing: laws, each on a function that does nothing.

ghost use Rattle.murphi_types.specs.Worked.{ExpressionsAreAsWorked, DesignatorsAreAsWorked, CallsAreAsWorked, QuantifiersAreAsWorked, ConstantsAreAsWorked, TypesAreAsWorked};
ghost use Rattle.murphi_types.specs.WorkedDeclarations.{DeclarationsAreAsWorked, LocalsAreAsWorked, RepeatsAreAsWorked, ArgumentsAreAsWorked};
ghost use Rattle.murphi_types.specs.Lemmas.{lemma_faults, lemma_typed};
ghost use Rattle.murphi_types.specs.Texts.{refusal, typed_text};
ghost use Rattle.murphi_types.specs.WorkedStatements.{WeightsAreAsWorked, AssignmentsAreAsWorked, BodiesAreAsWorked};
ghost use Rattle.murphi_types.specs.WorkedTexts.{TextsAreAsWorked, LimitsAreAsWorked, UsesAreAsWorked, RoutinesAreAsWorked, LemmasAreAsWorked};
ghost use Rattle.murphi_types.specs.WorkedProtocol.{ProtocolIsAsWorked};

/// The worked cases of typing come out as they were worked out by hand.
pub fn worked_cases()
    ensures expressions { ExpressionsAreAsWorked }
    ensures designators { DesignatorsAreAsWorked }
    ensures calls { CallsAreAsWorked }
    ensures quantifiers { QuantifiersAreAsWorked }
    ensures constants { ConstantsAreAsWorked }
    ensures types { TypesAreAsWorked }
    ensures declarations { DeclarationsAreAsWorked }
    ensures locals { LocalsAreAsWorked }
    ensures repeats { RepeatsAreAsWorked }
    ensures arguments { ArgumentsAreAsWorked }
    ensures weights { WeightsAreAsWorked }
    ensures assignments { AssignmentsAreAsWorked }
    ensures bodies { BodiesAreAsWorked }
    ensures texts { TextsAreAsWorked }
    ensures limits { LimitsAreAsWorked }
    ensures uses { UsesAreAsWorked }
    ensures routines { RoutinesAreAsWorked }
    ensures lemmas { LemmasAreAsWorked }
    ensures protocol { ProtocolIsAsWorked }
{}
