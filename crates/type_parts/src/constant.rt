//! The value of a constant.
#![tactic(auto, using(crate::proofs::FoldEquations::folds))]

ghost use Rattle.std.specs.Prelude.{◌≡◌, option_map, option_and_then};
ghost use Rattle.term_core.specs.declared.value.ArithOp.TheVariants.{Modulo};
ghost use Rattle.murphi_typed.specs.Expressions.{as_truth, compared, result_of};
ghost use Rattle.type_parts.specs.Folding.{in_range, calculated, joined, joined_both, denied, compared_both, implied, picked, folded, folded_links, number_in};

use murphi_ast::expr::{ChainOp, CompareOp};
use murphi_typed::expr::{Expr, Link};
use term_core::value::{ArithOp, Value};

/// What an operator makes of two numbers: none where it divides by 0 or passes the range of numbers.
fn calculated(op: ArithOp, left: Value, right: Value) -> Option<Value>
    ensures { result ≡ calculated op left right }
{
    let a = left.number();
    let b = right.number();
    let number = match op {
        ArithOp::Add => a.checked_add(b),
        ArithOp::Subtract => a.checked_sub(b),
        ArithOp::Times => a.checked_mul(b),
        ArithOp::Divide => a.checked_div(b),
        ArithOp::Modulo => remainder(a, b),
    };
    match number {
        Some(number) => Some(Value::Number(number)),
        None => None,
    }
}

/// The remainder, which is 0 where the divisor is -1.
fn remainder(a: i16, b: i16) -> Option<i16>
    ensures { result ≡ in_range (result_of Modulo a b) }
{
    if b == -1 {
        return Some(0);
    }
    a.checked_rem(b)
}

/// What a link of a chain makes of the value before it.
fn joined(op: ChainOp, left: Value, right: Option<Value>) -> Option<Value>
    ensures { result ≡ joined op left right }
{
    match op {
        ChainOp::Or => {
            if left.is_true() {
                return Some(Value::Truth(true));
            }
            as_truth(right)
        }
        ChainOp::And => {
            if left.is_true() {
                return as_truth(right);
            }
            Some(Value::Truth(false))
        }
        ChainOp::Add => with_number(ArithOp::Add, left, right),
        ChainOp::Subtract => with_number(ArithOp::Subtract, left, right),
        ChainOp::Times => with_number(ArithOp::Times, left, right),
        ChainOp::Divide => with_number(ArithOp::Divide, left, right),
        ChainOp::Modulo => with_number(ArithOp::Modulo, left, right),
    }
}

fn as_truth(value: Option<Value>) -> Option<Value>
    ensures { result ≡ option_map as_truth value }
{
    match value {
        Some(value) => Some(Value::Truth(value.is_true())),
        None => None,
    }
}

fn with_number(op: ArithOp, left: Value, right: Option<Value>) -> Option<Value>
    ensures { result ≡ option_and_then (calculated op left) right }
{
    match right {
        Some(right) => calculated(op, left, right),
        None => None,
    }
}

fn joined_both(op: ChainOp, left: Option<Value>, right: Option<Value>) -> Option<Value>
    ensures { result ≡ joined_both op left right }
{
    match left {
        Some(left) => joined(op, left, right),
        None => None,
    }
}

fn denied(value: Option<Value>) -> Option<Value>
    ensures { result ≡ denied value }
{
    match value {
        Some(value) => Some(Value::Truth(!value.is_true())),
        None => None,
    }
}

fn compared(op: CompareOp, a: Value, b: Value) -> bool
    ensures { result ≡ compared op a b }
{
    match op {
        CompareOp::Equal => a.is_same(b),
        CompareOp::NotEqual => !a.is_same(b),
        CompareOp::Less => a.number() < b.number(),
        CompareOp::LessEqual => a.number() <= b.number(),
        CompareOp::Greater => a.number() > b.number(),
        CompareOp::GreaterEqual => a.number() >= b.number(),
    }
}

fn compared_both(op: CompareOp, a: Option<Value>, b: Option<Value>) -> Option<Value>
    ensures { result ≡ compared_both op a b }
{
    match (a, b) {
        (Some(a), Some(b)) => Some(Value::Truth(compared(op, a, b))),
        _ => None,
    }
}

fn implied(left: Option<Value>, right: Option<Value>) -> Option<Value>
    ensures { result ≡ implied left right }
{
    match left {
        None => None,
        Some(left) => {
            if left.is_true() {
                return as_truth(right);
            }
            Some(Value::Truth(true))
        }
    }
}

fn picked(test: Option<Value>, first: Option<Value>, second: Option<Value>) -> Option<Value>
    ensures { result ≡ picked test first second }
{
    match test {
        None => None,
        Some(test) => { if test.is_true() { first } else { second } }
    }
}

/// The value of a typed expression, where it is that of a constant that has one.
#[cycle(fold)]
pub fn folded(tree: &Expr) -> Option<Value>
    ensures { result ≡ folded tree.now }
{
    match tree {
        Expr::Known(value) => Some(*value),
        Expr::Not(body) => {
            let value = folded(body.get());
            denied(value)
        }
        Expr::Minus(body) => {
            let value = folded(body.get());
            with_number(ArithOp::Subtract, Value::Number(0), value)
        }
        Expr::Chain { first, rest } => {
            let first = folded(first.get());
            folded_links(first, rest.as_slice())
        }
        Expr::Compare { op, left, right } => {
            let a = folded(left.get());
            let b = folded(right.get());
            compared_both(*op, a, b)
        }
        Expr::Implies { left, right } => {
            let a = folded(left.get());
            let b = folded(right.get());
            implied(a, b)
        }
        Expr::Choice { test, yes, no } => {
            let test = folded(test.get());
            let a = folded(yes.get());
            let b = folded(no.get());
            picked(test, a, b)
        }
        Expr::Bound(_) => None,
        Expr::Read(_) => None,
        Expr::Call { .. } => None,
        Expr::Quantified { .. } => None,
        Expr::IsUndefined(_) => None,
    }
}

#[cycle(fold)]
fn folded_links(first: Option<Value>, rest: &[Link]) -> Option<Value>
    ensures { result ≡ folded_links first rest.now }
{
    let mut left = first;
    for link in rest {
        let right = folded(&link.operand);
        left = joined_both(link.op, left, right);
    }
    left
}

/// The number of a typed expression, where it is a constant that is one.
pub fn folded_number(tree: &Expr) -> Option<i16>
    ensures { result ≡ number_in (folded tree.now) }
{
    match folded(tree) {
        Some(Value::Number(number)) => Some(number),
        _ => None,
    }
}
