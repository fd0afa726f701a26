//! What operators make of values. None is a fault; its place is that of the statement or guard that is
//! running. Nothing here takes memory.

#![tactic(auto, using(crate::proofs::ValueEquations::operators))]

ghost use Rattle.std.specs.Prelude.{◌≡◌};
ghost use Rattle.term_core.specs.declared.value.ArithOp.TheVariants.{Modulo};
ghost use Rattle.murphi_ast.specs.declared.token.Span.{Span};
ghost use Rattle.murphi_typed.specs.Values.{is_value, may_hold};
ghost use Rattle.murphi_typed.specs.Outcome.{Got, or_fault};
ghost use Rattle.murphi_typed.specs.Expressions.{calculated, compared, defined, fitting, joined, result_of};
ghost use Rattle.murphi_typed.specs.Execution.{stored};
ghost use Rattle.murphi_run.specs.Operators.{found, kept, Settles};

use murphi_ast::expr::{ChainOp, CompareOp};
use murphi_typed::types::Simple;
use term_core::value::{ArithOp, Value};

/// What an operator makes of two numbers: a fault where it divides by 0 or passes the range of numbers.
pub fn calculated(op: ArithOp, left: Value, right: Value) -> Option<Value>
    ensures { (at : Span) → calculated at op left right ≡ or_fault at result }
{
    found(op, left, right)
}

fn found(op: ArithOp, left: Value, right: Value) -> Option<Value>
    ensures { result ≡ found op left right }
{
    let a = left.number();
    let b = right.number();
    let number = match op {
        ArithOp::Add => a.checked_add(b),
        ArithOp::Subtract => a.checked_sub(b),
        ArithOp::Times => a.checked_mul(b),
        ArithOp::Divide => a.checked_div(b),
        ArithOp::Modulo => remainder(a, b),
    };
    match number {
        Some(number) => Some(Value::Number(number)),
        None => None,
    }
}

/// The remainder, which is 0 where the divisor is -1.
fn remainder(a: i16, b: i16) -> Option<i16>
    ensures { result ≡ kept (result_of Modulo a b) }
{
    if b == -1 {
        return Some(0);
    }
    a.checked_rem(b)
}

/// The value of a link of a chain where the value before it settles that, so that the operand is not
/// worked out.
pub fn settled(op: ChainOp, left: Value) -> Option<Value>
    ensures { Settles op left result }
{
    match op {
        ChainOp::Or => {
            if left.is_true() {
                Some(Value::Truth(true))
            } else {
                None
            }
        }
        ChainOp::And => {
            if left.is_true() {
                None
            } else {
                Some(Value::Truth(false))
            }
        }
        _ => None,
    }
}

/// What a link of a chain makes of the value before it and that of its operand.
pub fn joined(op: ChainOp, left: Value, right: Value) -> Option<Value>
    ensures { (at : Span) → joined at op left (Got right) ≡ or_fault at result }
{
    match op {
        ChainOp::Or => {
            if left.is_true() {
                Some(Value::Truth(true))
            } else {
                Some(Value::Truth(right.is_true()))
            }
        }
        ChainOp::And => {
            if left.is_true() {
                Some(Value::Truth(right.is_true()))
            } else {
                Some(Value::Truth(false))
            }
        }
        ChainOp::Add => calculated(ArithOp::Add, left, right),
        ChainOp::Subtract => calculated(ArithOp::Subtract, left, right),
        ChainOp::Times => calculated(ArithOp::Times, left, right),
        ChainOp::Divide => calculated(ArithOp::Divide, left, right),
        ChainOp::Modulo => calculated(ArithOp::Modulo, left, right),
    }
}

/// Whether a comparison of two values holds.
pub fn compared(op: CompareOp, a: Value, b: Value) -> bool
    ensures { result ≡ compared op a b }
{
    match op {
        CompareOp::Equal => a.is_same(b),
        CompareOp::NotEqual => !a.is_same(b),
        CompareOp::Less => a.number() < b.number(),
        CompareOp::LessEqual => a.number() <= b.number(),
        CompareOp::Greater => a.number() > b.number(),
        CompareOp::GreaterEqual => a.number() >= b.number(),
    }
}

/// The value of a cell that is read: a fault where it is undefined.
pub fn defined(value: Value) -> Option<Value>
    ensures { (at : Span) → defined at value ≡ or_fault at result }
{
    match value {
        Value::Undefined => None,
        _ => Some(value),
    }
}

/// An index: a fault where it is none of its index type.
pub fn index(nodes: u32, over: Simple, value: Value) -> Option<Value>
    ensures { (at : Span) → fitting (is_value nodes over value) at value ≡ or_fault at result }
{
    if over.has(nodes, value) {
        Some(value)
    } else {
        None
    }
}

/// What a cell of a type is to hold: a fault where it is neither undefined nor of the type.
pub fn stored(nodes: u32, into: Simple, value: Value) -> Option<Value>
    ensures { (at : Span) → stored nodes at into value ≡ or_fault at result }
{
    if into.may_hold(nodes, value) {
        Some(value)
    } else {
        None
    }
}
