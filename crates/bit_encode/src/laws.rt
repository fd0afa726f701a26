//! What holds of codes, and of the edges that steps and formulas have: laws, each on a function that does no work.

ghost use Rattle.bit_encode.specs.Worked.{WidthsAreAsWorked, CodesAreAsWorked, BitsAreAsCounted};
ghost use Rattle.bit_encode.specs.Laws.{BitsStandForNumbers, PositionsHaveCodes, LegalCodesShowStates, LegalCodesAreSeen, LegalCodesFit, WidthsAreLeast, AgreementIsSeen, FormsComeFromParts, FiringIsAStep, CodedFiringIsAStep, CodedStepsAreSteps, CodedViolationsAreViolations};

use other_abstract::laws::definitions_are_decided;

/// The bits of a number stand for it, and each position of a list has a code in as many bits as the list takes.
pub fn positions_have_codes()
    ensures bits { BitsStandForNumbers }
    ensures widths { WidthsAreLeast }
    ensures positions { PositionsHaveCodes }
{}

/// Where cells are coded by inputs, a legal code shows the state that the inputs code; and the code is legal
/// exactly where each cell has some value.
pub fn codes_show_states()
    ensures shows { LegalCodesShowStates }
    ensures legal { LegalCodesAreSeen }
    ensures agreement { AgreementIsSeen }
{}

/// A state that legal codes show has a value for each cell of the window, and each is one that the cell may have.
pub fn legal_codes_fit()
    ensures { LegalCodesFit }
{}

/// What a form of term may be comes from what its parts may be, as `combine` and `tally` put the sets of the
/// parts together; and a read from where its indices may lead, as `read` puts the sets of the cells together.
pub fn forms_are_said()
    ensures { FormsComeFromParts }
{}

/// What `fires` tells of the three states, over the cells of the kept nodes in order, is the step of the abstract
/// machine; so where the states are coded by inputs and the codes are legal, its edge is true exactly where the coded
/// states are those of a step.
pub fn firing_is_a_step()
    ensures step { FiringIsAStep }
    ensures coded { CodedFiringIsAStep }
{}

/// For a rule of the machine and a pattern of it, the edge is true exactly where the coded states are those of a step;
/// and the edge of `some_may_fail` is true exactly where the coded kept state violates a formula.
pub fn coded_steps_are_steps()
    ensures steps { CodedStepsAreSteps }
    ensures violations { CodedViolationsAreViolations }
{
    definitions_are_decided();
}

/// Cases worked by hand: widths, codes of a flag and a pointer, and how many bits German's protocol takes.
pub fn codes_are_as_worked()
    ensures widths { WidthsAreAsWorked }
    ensures codes { CodesAreAsWorked }
    ensures counts { BitsAreAsCounted }
{}
