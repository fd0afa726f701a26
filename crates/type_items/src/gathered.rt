//! What the items so far leave, and where the next one stands.

use crate::titles::Numbering;
use murphi_typed::protocol::{Guard, Parameter, Rule, Start, TypedFormula, Variable};
use murphi_typed::stmt::Stmt;
use murphi_types::fault::Fault;
use sqlite_items::Items;
use type_parts::context::Context;
use type_parts::judged::Judged;

/// Where an item stands: the names in scope with what the text has declared so far, and the parameters of the
/// rulesets around it, from the outermost; and the first fault so far.
#[derive(Drop)]
pub struct Inside {
    pub context: Context,
    pub params: Items<Parameter>,
    pub fault: Option<Fault>,
}

/// The items so far, each kind with what its next title and its instances need.
#[derive(Drop)]
pub struct Made {
    pub rules: Items<Rule>,
    pub rule_numbers: Numbering,
    pub starts: Items<Start>,
    pub start_numbers: Numbering,
    pub invariants: Items<TypedFormula>,
    pub invariant_numbers: Numbering,
}

/// The items so far, and where the next one stands.
#[derive(Drop)]
pub struct Gathered {
    pub inside: Inside,
    pub made: Made,
}

/// A guard. One that is missing counts for nothing.
#[derive(Drop)]
pub struct JudgedGuard {
    pub guard: Option<Guard>,
    pub weight: u64,
    pub fault: Option<Fault>,
}

/// Locals and statements of a body, and what is in scope and declared after it. `limit` is the first limit of
/// leaves that its locals pass.
#[derive(Drop)]
pub struct Stated {
    pub context: Context,
    pub locals: Items<Variable>,
    pub trees: Items<Stmt>,
    pub weight: u64,
    pub fault: Option<Fault>,
    pub limit: Option<Fault>,
}

/// Guard, locals and body of a rule or a start state. `limit` is the first limit of leaves that its locals pass.
#[derive(Drop)]
pub struct JudgedBody {
    pub guard: Option<Guard>,
    pub locals: Items<Variable>,
    pub body: Stmt,
    pub weight: u64,
    pub fault: Option<Fault>,
    pub limit: Option<Fault>,
}

/// What the tree of a rule or a start state has beside its parts: its parameters and its prefix length.
#[derive(Drop)]
pub struct Head {
    pub params: Items<Parameter>,
    pub prefix: u32,
}

/// A body that is typed, and where its item stands after it.
#[derive(Drop)]
pub struct Bodied {
    pub inside: Inside,
    pub part: JudgedBody,
}

/// What an invariant claims, and where it stands after it.
#[derive(Drop)]
pub struct Claimed {
    pub inside: Inside,
    pub part: Judged,
}
