//! What typing gives of a part: its type where it has one, its tree, its weight, and its first fault. The tree of
//! a part that has a fault says nothing.

use murphi_ast::token::Span;
use murphi_typed::expr::{Argument, Expr, Link, Root, Selector};
use murphi_typed::protocol::Routine;
use murphi_typed::shared::Shared;
use murphi_typed::types::{AnyType, Field};
use murphi_types::fault::Fault;
use sqlite_items::Items;

/// An expression.
#[derive(Drop)]
pub struct Judged {
    pub of: Option<AnyType>,
    pub tree: Expr,
    pub weight: u64,
    pub fault: Option<Fault>,
}

/// The further operands of a chain. `typed` says that none of them is ill-typed.
#[derive(Drop)]
pub struct JudgedLinks {
    pub typed: bool,
    pub trees: Items<Link>,
    pub weight: u64,
    pub fault: Option<Fault>,
}

/// The fields and indices after a name, with the type after them.
#[derive(Drop)]
pub struct JudgedSelectors {
    pub of: Option<AnyType>,
    pub trees: Items<Selector>,
    pub weight: u64,
    pub fault: Option<Fault>,
}

/// What a designator starts with: a variable; a value that may not be written; or nothing that has a value.
#[derive(Drop)]
pub enum Start {
    Rooted(Root),
    Fixed(Expr),
    Nowhere,
}

/// A designator, with the place of its first token.
#[derive(Drop)]
pub struct JudgedPlace {
    pub start: Start,
    pub at: Span,
    pub of: Option<AnyType>,
    pub selectors: Items<Selector>,
    pub weight: u64,
    pub fault: Option<Fault>,
}

/// The routine that a call names, if it names one, with its number and the weight of its body.
#[derive(Drop)]
pub struct JudgedCallee {
    pub number: u32,
    pub routine: Option<Shared<Routine>>,
    pub weight: u64,
    pub fault: Option<Fault>,
}

/// What a call gives to the formals. `typed` says that no argument is ill-typed or has a fault.
#[derive(Drop)]
pub struct JudgedArguments {
    pub typed: bool,
    pub trees: Items<Argument>,
    pub weight: u64,
    pub fault: Option<Fault>,
}

/// A type.
#[derive(Drop)]
pub struct JudgedType {
    pub of: Option<AnyType>,
    pub fault: Option<Fault>,
}

/// The number that a constant is.
#[derive(Debug, Clone, Copy)]
pub struct JudgedNumber {
    pub number: Option<i16>,
    pub fault: Option<Fault>,
}

/// The fields of a record, unless one of them is ill-typed.
#[derive(Drop)]
pub struct JudgedFields {
    pub fields: Option<Items<Field>>,
    pub fault: Option<Fault>,
}
