//! What typing gives of statements: their trees, their weight, and their first fault. The trees of statements that
//! have a fault say nothing.

use murphi_typed::expr::Expr;
use murphi_typed::stmt::{Arm, Case, Stmt};
use murphi_typed::types::Simple;
use murphi_types::fault::Fault;
use sqlite_items::Items;

/// How a body may be left: a rule or a start state only at its end, a procedure by `return`, a function by
/// `return` with a value of its result type, where that type is known.
#[derive(Debug, Clone, Copy)]
pub enum Leaving {
    AtEnd,
    ByReturn,
    WithValue(Option<Simple>),
}

/// One statement.
#[derive(Drop)]
pub struct JudgedStmt {
    pub tree: Stmt,
    pub weight: u64,
    pub fault: Option<Fault>,
}

/// Statements in turn.
#[derive(Drop)]
pub struct JudgedStmts {
    pub trees: Items<Stmt>,
    pub weight: u64,
    pub fault: Option<Fault>,
}

/// The tests of an `if`, each with the statements that it guards.
#[derive(Drop)]
pub struct JudgedArms {
    pub trees: Items<Arm>,
    pub weight: u64,
    pub fault: Option<Fault>,
}

/// The labels of a case.
#[derive(Drop)]
pub struct JudgedLabels {
    pub trees: Items<Expr>,
    pub weight: u64,
    pub fault: Option<Fault>,
}

/// The cases of a `switch`.
#[derive(Drop)]
pub struct JudgedCases {
    pub trees: Items<Case>,
    pub weight: u64,
    pub fault: Option<Fault>,
}
