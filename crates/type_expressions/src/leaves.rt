//! Literals, and the operands of chains.

ghost use Rattle.std.specs.Prelude.{◌≡◌, ◌+◌, None, Some, pos, IfOk, OnOk};
ghost use Rattle.murphi_typed.specs.WellTyped.{operand_type};
ghost use Rattle.type_expressions.specs.PartLists.{list_operands, literal_part, literal_number, literal_truth};
ghost use Rattle.type_expressions.specs.PartsGiven.{linked_by};

use murphi_ast::expr::{ChainOp, Link};
use murphi_ast::text::Memory;
use murphi_typed::expr::{Expr, Link as TypedLink};
use murphi_typed::types::{AnyType, Simple};
use term_core::value::Value;
use type_parts::faults::sooner;
use type_parts::fitting::numbers;
use type_parts::judged::{Judged, JudgedLinks};
use type_parts::weights::plus;

fn literal(of: Simple, value: Value) -> Judged
    ensures { result ≡ literal_part of value }
{
    Judged {
        of: Some(AnyType::Simple(of)),
        tree: Expr::Known(value),
        weight: 1,
        fault: None,
    }
}

/// A number as it is written.
pub fn number(value: u16) -> Result<Judged, Memory>
    ensures { IfOk result (λ r. r ≡ literal_number value) }
{
    match i16::try_from(value) {
        Ok(number) => Ok(literal(numbers(), Value::Number(number))),
        Err(_) => Err(Memory),
    }
}

/// A truth value as it is written.
pub fn truth(value: bool) -> Judged
    ensures { result ≡ literal_truth value }
{
    literal(Simple::Truth, Value::Truth(value))
}

fn operand_type(op: ChainOp) -> Simple
    ensures { result ≡ operand_type op }
{
    match op {
        ChainOp::Or | ChainOp::And => Simple::Truth,
        _ => numbers(),
    }
}

/// The type of the operands of a chain.
pub fn operands(all: &[Link]) -> Simple
    ensures { result ≡ list_operands all.now }
{
    match all {
        [] => numbers(),
        [first, ..] => operand_type(first.op),
    }
}

/// One operand of a chain more.
pub fn more_links(done: &mut JudgedLinks, op: ChainOp, part: Judged) -> Result<(), Memory>
    ensures { OnOk result (done.new ≡ linked_by op part done.old) }
{
    let typed = if done.typed { part.of.is_some() } else { false };
    done.trees.push(TypedLink {
        op,
        operand: part.tree,
    })?;
    done.typed = typed;
    done.weight = plus(done.weight, part.weight);
    done.fault = sooner(done.fault, part.fault);
    Ok(())
}

/// The next number.
pub fn next(number: usize) -> Result<usize, Memory>
    ensures { IfOk result (λ n. n ≡ number + 1) }
{
    match number.checked_add(1) {
        Some(next) => Ok(next),
        None => Err(Memory),
    }
}
