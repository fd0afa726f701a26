//! Expressions, designators and arguments. Designators and lists of arguments are enums of one form, so
//! that definitions meet their lists as rows in statements too.

use crate::types::Simple;
use murphi_ast::expr::{ChainOp, CompareOp};
use murphi_ast::text::Text;
use murphi_ast::token::Span;
use sqlite_items::{Boxed, Items};
use term_core::value::Value;

/// The variable of a designator. Globals are numbered in the order of the text, and so are the formals
/// and the locals of the routine, rule or start state that the designator stands in, each from 0.
#[derive(Debug, Clone, Copy, PartialEq, Eq)]
pub enum Root {
    Global(u32),
    Local(u32),
    /// A formal by value, by its number among all formals.
    Formal(u32),
    /// A `var` formal, by its number among all formals. It stands for a place that the call gives.
    Place(u32),
}

/// An expression. It has a simple type.
#[cycle(expr)]
#[derive(Drop)]
pub enum Expr {
    /// A number, a truth value, a constant or the name of a member.
    Known(Value),
    /// A parameter of the rulesets, or the variable of a quantifier or of a `for`. Those in scope are
    /// numbered from the outermost, which is 0; in a routine they are those of its own body alone.
    Bound(u32),
    /// The cell of a designator of simple type.
    Read(Designator),
    /// The result of a function, by its number among all routines. `at` is the place of its name.
    Call {
        routine: u32,
        args: Arguments,
        at: Span,
    },
    Not(Boxed<Expr>),
    Minus(Boxed<Expr>),
    /// Operands of one level, from left to right.
    Chain {
        first: Boxed<Expr>,
        rest: Items<Link>,
    },
    Compare {
        op: CompareOp,
        left: Boxed<Expr>,
        right: Boxed<Expr>,
    },
    Implies {
        left: Boxed<Expr>,
        right: Boxed<Expr>,
    },
    Choice {
        test: Boxed<Expr>,
        yes: Boxed<Expr>,
        no: Boxed<Expr>,
    },
    /// `forall`, or `exists` where `all` is false.
    Quantified {
        all: bool,
        over: Simple,
        body: Boxed<Expr>,
    },
    /// Whether the cell of a designator of simple type is undefined. Of a constant, a member, a parameter
    /// or a bound variable this is false, and the typed expression is `Known`.
    IsUndefined(Designator),
}

/// One more operand of a chain, with the operator before it.
#[cycle(expr)]
#[derive(Drop)]
pub struct Link {
    pub op: ChainOp,
    pub operand: Expr,
}

/// A variable, followed by fields and indices. `at` is the place of its first token.
#[cycle(expr)]
#[derive(Drop)]
pub enum Designator {
    Of {
        root: Root,
        selectors: Items<Selector>,
        at: Span,
    },
}

/// A field, or an index with the index type of the array.
#[cycle(expr)]
#[derive(Drop)]
pub enum Selector {
    Field(Text),
    Index { over: Simple, index: Expr },
}

/// What a call gives to a formal.
#[cycle(expr)]
#[derive(Drop)]
pub enum Argument {
    /// To a formal by value of simple type: the cell of a plain designator, also where it is undefined.
    Copy(Designator),
    /// To a formal by value of compound type: the cells of a plain designator.
    CopyAll(Designator),
    /// To a formal by value of simple type: the value of any other expression.
    Value(Expr),
    /// To a `var` formal: a place.
    Place(Designator),
}

/// What a call gives to the formals, in their order.
#[cycle(expr)]
#[derive(Drop)]
pub enum Arguments {
    Of(Items<Argument>),
}
