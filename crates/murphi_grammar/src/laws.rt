//! Laws of the grammar. Each is the contract of a function that does nothing.
ghost use Rattle.murphi_grammar.specs.Laws.{BeginsTheSame, ReadsOneWay, SpellsOneValue, SpellsTheSame, WalksAreReadings};

/// The left-factored form says what the grammar as it is written says: the same lists spell each of its
/// forms, with the same values, and the same lists begin it, however many nestings may be open.
pub fn grammars_agree()
    ensures spelled { SpellsTheSame }
    ensures begun { BeginsTheSame }
{}

/// No token list spells two values of a named form.
pub fn one_value()
    ensures { SpellsOneValue }
{}

/// No token list is read in two ways: what was read, or why reading stopped, and where.
pub fn one_reading()
    ensures { ReadsOneWay }
{}

/// Reading as it goes, one token deciding at each choice, gets what is spelled, and stops at the first
/// token with which the tokens before it begin the form no longer.
pub fn walks_are_readings()
    ensures { WalksAreReadings }
{}
