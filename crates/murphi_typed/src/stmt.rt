//! Statements.

use crate::expr::{Arguments, Designator, Expr};
use crate::types::{AnyType, Simple};
use murphi_ast::token::Span;
use sqlite_items::Items;

/// A statement. The place of a statement is that of its first token: where none is kept here, that of
/// its first designator.
#[cycle(stmt)]
#[derive(Drop)]
pub enum Stmt {
    /// Statements in turn: the whole body of a routine, a rule or a start state.
    Block(Items<Stmt>),
    /// `to := value`, where `to` has the simple type `into` and the value is no plain designator.
    Assign {
        to: Designator,
        into: Simple,
        value: Expr,
    },
    /// `to := from`, where both are plain designators and `to` has the simple type `into`.
    Copy {
        to: Designator,
        into: Simple,
        from: Designator,
    },
    /// `to := from`, where both are plain designators of one compound type.
    CopyAll {
        to: Designator,
        from: Designator,
    },
    /// A call of a procedure, by its number among all routines. `at` is the place of its name.
    Call {
        routine: u32,
        args: Arguments,
        at: Span,
    },
    If {
        arms: Items<Arm>,
        otherwise: Items<Stmt>,
        at: Span,
    },
    Switch {
        on: Expr,
        cases: Items<Case>,
        otherwise: Items<Stmt>,
        at: Span,
    },
    For {
        over: Simple,
        body: Items<Stmt>,
        at: Span,
    },
    /// `of` is the type of the designator.
    Clear {
        place: Designator,
        of: AnyType,
        at: Span,
    },
    Undefine {
        place: Designator,
        at: Span,
    },
    Error {
        at: Span,
    },
    Assert {
        test: Expr,
        at: Span,
    },
    /// `put` of a string.
    PutText {
        at: Span,
    },
    Put {
        value: Expr,
        at: Span,
    },
    /// `return` in a procedure.
    Leave {
        at: Span,
    },
    /// `return` in a function.
    Return {
        value: Expr,
        at: Span,
    },
}

/// One test of an `if`, with the statements that it guards.
#[cycle(stmt)]
#[derive(Drop)]
pub struct Arm {
    pub test: Expr,
    pub body: Items<Stmt>,
}

/// One case of a `switch`.
#[cycle(stmt)]
#[derive(Drop)]
pub struct Case {
    pub labels: Items<Expr>,
    pub body: Items<Stmt>,
}
