//! Variables, routines, rules, start states, formulas, and the whole typed protocol.

use crate::expr::Expr;
use crate::shared::Shared;
use crate::stmt::Stmt;
use crate::types::{AnyType, Kind, Simple};
use murphi_ast::text::Text;
use murphi_ast::token::Span;
use sqlite_items::Items;

/// A global or a local.
#[derive(Drop)]
pub struct Variable {
    pub name: Text,
    pub of: AnyType,
}

/// A formal. `by_place` says that `var` stands before it.
#[derive(Drop)]
pub struct Formal {
    pub name: Text,
    pub by_place: bool,
    pub of: AnyType,
}

/// A procedure, or a function where it has a result. It calls only routines with smaller numbers. Its
/// body is a `Block`.
#[derive(Drop)]
pub struct Routine {
    pub name: Text,
    pub formals: Items<Formal>,
    pub result: Option<Simple>,
    pub locals: Items<Variable>,
    pub body: Stmt,
}

/// A parameter of a ruleset.
#[derive(Drop)]
pub struct Parameter {
    pub name: Text,
    pub over: Simple,
}

/// A guard as it is written, with the place of its first token.
#[derive(Drop)]
pub struct Guard {
    pub test: Expr,
    pub at: Span,
}

/// A rule. The parameters are those of all rulesets around it, the outermost first. The title is that
/// of the report: the string, or `#k`. The body is a `Block`. `prefix` is the prefix length of the
/// formula that it does not fault.
#[derive(Drop)]
pub struct Rule {
    pub title: Text,
    pub params: Items<Parameter>,
    pub guard: Option<Guard>,
    pub locals: Items<Variable>,
    pub body: Stmt,
    pub prefix: u32,
}

/// A start state, with the same parts as a rule.
#[derive(Drop)]
pub struct Start {
    pub title: Text,
    pub params: Items<Parameter>,
    pub locals: Items<Variable>,
    pub body: Stmt,
    pub prefix: u32,
}

/// An invariant, with its title and its parameters; or a lemma, which has its name and no parameters.
/// `kinds` are those that it writes itself; they are numbered after those of the protocol, and those of
/// an invariant are among the protocol's. `uses` are the places in it where the constant that is the
/// size of the node type is used, in text order.
#[derive(Drop)]
pub struct TypedFormula {
    pub title: Text,
    pub params: Items<Parameter>,
    pub body: Expr,
    pub prefix: u32,
    pub kinds: Items<Kind>,
    pub uses: Items<Span>,
}

/// How the size of the node type is written.
#[derive(Drop)]
pub enum WrittenSize {
    /// One number.
    Number,
    /// The name of one constant.
    Constant(Text),
    /// Any other expression.
    Other,
}

/// The node type: its name, how its size is written and the place of the first token of that, and the
/// places where the constant that gives it is used but for the declaration of the node type, in text
/// order.
#[derive(Drop)]
pub struct NodeType {
    pub name: Text,
    pub size: WrittenSize,
    pub size_at: Span,
    pub uses: Items<Span>,
}

/// What a global name stands for. Variables and routines go by their numbers.
#[derive(Drop)]
pub enum Entity {
    Constant(i16),
    TypeName(Shared<AnyType>),
    Variable(u32),
    Member { kind: u32, index: u8, count: u16 },
    Routine(u32),
}

/// A global name.
#[derive(Drop)]
pub struct Declared {
    pub name: Text,
    pub what: Entity,
}

/// A typed protocol. Globals, routines, start states, rules and invariants stand in text order. `names`
/// are all global names in the order in which they are declared, and `weights` are those of the bodies
/// of the routines, in their order: both are for the typing of lemmas, which shares the routines and
/// copies none. A weight that a u64 cannot hold is the greatest u64. There is no node type where none is
/// named.
#[derive(Drop)]
pub struct Typed {
    pub names: Items<Declared>,
    pub kinds: Items<Kind>,
    pub node: Option<NodeType>,
    pub globals: Items<Variable>,
    pub routines: Items<Shared<Routine>>,
    pub weights: Items<u64>,
    pub starts: Items<Start>,
    pub rules: Items<Rule>,
    pub invariants: Items<TypedFormula>,
}
