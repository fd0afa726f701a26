//! Why a text is not typed.

ghost use Rattle.std.specs.Prelude.{◌≡◌};
ghost use Rattle.type_texts.specs.Refusing.{told};

use murphi_ast::token::Span;
use murphi_types::fault::{Cause, Fault, Quantity};

/// Why a text is not typed: the first fault in text order, at one place that of the least code, with the place of
/// its first token; for a limit that is passed the quantity, how much of it there is, and the limit. The codes are
/// those that the program prints.
#[derive(Debug, Clone, Copy, PartialEq, Eq)]
pub enum TypeRefusal {
    /// A name that is not declared.
    E05(Span),
    /// A name that is declared twice in one scope.
    E06(Span),
    /// A wrong type, or a declared name of another kind than its place takes.
    E07(Span),
    /// Not a constant, a bad constant, low above high, a scalarset below 1.
    E08(Span),
    /// No start state.
    E09,
    /// Left out of the language.
    E10(Span),
    /// A wrong number of arguments, a `var` argument that is no designator, a procedure as a value, a function
    /// as a statement, a misplaced `return`.
    E11(Span),
    /// The name that is given to the node type is no global type that is declared as a scalarset.
    E13,
    /// What may not be written is written.
    E14(Span),
    /// A limit is passed.
    E16 {
        quantity: Quantity,
        count: u64,
        limit: u64,
    },
    /// There was no memory.
    Memory,
}

/// A fault, as it is told.
pub fn told(fault: Fault) -> TypeRefusal
    ensures { result ≡ told fault }
{
    match fault.cause {
        Cause::E05 => TypeRefusal::E05(fault.at),
        Cause::E06 => TypeRefusal::E06(fault.at),
        Cause::E07 => TypeRefusal::E07(fault.at),
        Cause::E08 => TypeRefusal::E08(fault.at),
        Cause::E10 => TypeRefusal::E10(fault.at),
        Cause::E11 => TypeRefusal::E11(fault.at),
        Cause::E14 => TypeRefusal::E14(fault.at),
        Cause::E16 {
            quantity,
            count,
            limit,
        } => TypeRefusal::E16 {
            quantity,
            count,
            limit,
        },
    }
}
