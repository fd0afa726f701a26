//! Laws, each on a function that does nothing.

ghost use Rattle.typing_sound.specs.Sound.{ExpressionsAreSpelled, LemmasAreWellTyped, MutexIsSpelled, TextsAreWellTyped, TokensAreSmall, TreesAreSpelled};

/// A text that typing does not refuse is typed as a well-typed protocol, for whatever name is given for the
/// node type. Of the tree nothing is asked but what every tree keeps that the tokens of a text spell.
pub fn texts_are_well_typed()
    ensures texts { TextsAreWellTyped }
{}

/// A lemma that has no fault beside such a text is typed as a well-typed formula of that protocol, which has
/// the kinds of the lemma behind its own.
pub fn lemmas_are_well_typed()
    ensures lemmas { LemmasAreWellTyped }
{}

/// What is asked of a tree is so of the worked protocol, which is mutex.m with two of its rules.
pub fn worked_case()
    ensures spelled { MutexIsSpelled }
{}

/// What is asked of a tree is so of every protocol and every expression that tokens spell whose numbers are
/// those that a text may have, however many nestings may be open; and the tokens that bytes spell have such
/// numbers.
pub fn trees_are_spelled()
    ensures tokens { TokensAreSmall }
    ensures protocols { TreesAreSpelled }
    ensures expressions { ExpressionsAreSpelled }
{}
