//! What typing of a part leaves of what the text has declared: laws, each on a function that does nothing.

ghost use Rattle.typing_laws.specs.Keeping.{ExpressionsDeclareNothing, TypesDeclareNoVariables, PlacesDeclareNothing, ArgumentsDeclareNothing, StatementsDeclareNothing, BodiesDeclareNothing, DeclarationsKeepRoutines, LocalsAreNoGlobals, ItemsDeclareNothing, ItemListsDeclareNothing};

/// Expressions, designators, arguments and types declare no globals and no routines. What they declare for the
/// whole text is enum names, and the kinds of the types that are written in them.
pub fn expressions_declare_nothing()
    ensures expressions { ExpressionsDeclareNothing }
    ensures types { TypesDeclareNoVariables }
    ensures places { PlacesDeclareNothing }
    ensures arguments { ArgumentsDeclareNothing }
{}

/// Statements declare no globals and no routines either.
pub fn statements_declare_nothing()
    ensures statements { StatementsDeclareNothing }
    ensures bodies { BodiesDeclareNothing }
{}

/// Declarations of constants, types and variables leave all routines as they are, and those of locals all
/// globals too.
pub fn declarations_keep_routines()
    ensures declarations { DeclarationsKeepRoutines }
    ensures locals { LocalsAreNoGlobals }
{}

/// Rules, start states and invariants, in whatever rulesets, declare no globals and no routines: all items of a
/// text have the same routines.
pub fn items_declare_nothing()
    ensures items { ItemsDeclareNothing }
    ensures lists { ItemListsDeclareNothing }
{}
