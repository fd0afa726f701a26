//! A term in which no conjunction has the comparison of an axis with the variable of a loop.

#![tactic(auto, using(crate::proofs::DroppedEquations::droppings))]

ghost use Rattle.std.specs.Prelude.{◌≡◌, ◌++◌, ◌&&◌, map, IfOk};
ghost use Rattle.rule_inline.specs.Tables.{is_comparison, dropped};
ghost use Rattle.rule_terms.specs.Steps.{list_without, kept_part, is_variable};

use sqlite_items::{Boxed, Items};
use std::alloc::Global;
use term_core::term::Term;
use term_core::text::Memory;

/// An axis and the variable of a loop.
#[derive(Debug, Clone, Copy, PartialEq, Eq)]
pub struct Pair {
    pub axis: u32,
    pub variable: u32,
}

fn is_variable(k: u32, t: &Term) -> bool
    ensures { result ≡ is_variable k t.now }
{
    match t {
        Term::Var(j) => *j == k,
        Term::Known(_)
        | Term::Read { .. }
        | Term::Not(_)
        | Term::And(_)
        | Term::Or(_)
        | Term::If { .. }
        | Term::Same { .. }
        | Term::Less { .. }
        | Term::Arith { .. }
        | Term::Quantified { .. } => false,
    }
}

fn are_variables(pair: Pair, left: &Term, right: &Term) -> bool
    ensures { result ≡ (is_variable pair.axis left.now && is_variable pair.variable right.now) }
{
    if !is_variable(pair.axis, left) {
        return false;
    }
    is_variable(pair.variable, right)
}

/// Whether a term is the comparison of the two.
fn is_comparison(pair: Pair, t: &Term) -> bool
    ensures { result ≡ is_comparison pair.axis pair.variable t.now }
{
    match t {
        Term::Same { left, right } => are_variables(pair, left.get(), right.get()),
        Term::Known(_)
        | Term::Var(_)
        | Term::Read { .. }
        | Term::Not(_)
        | Term::And(_)
        | Term::Or(_)
        | Term::If { .. }
        | Term::Less { .. }
        | Term::Arith { .. }
        | Term::Quantified { .. } => false,
    }
}

/// The term without those comparisons.
#[cycle(dropped)]
pub fn dropped(alloc: Global, t: &Term, pair: Pair) -> Result<Term, Memory>
    ensures { IfOk result (λ out. out ≡ dropped pair.axis pair.variable t.now) }
{
    match t {
        Term::Known(value) => Ok(Term::Known(*value)),
        Term::Var(number) => Ok(Term::Var(*number)),
        Term::Read { family, at } => {
            let at = dropped_all(alloc, at.as_slice(), pair)?;
            Ok(Term::Read {
                family: *family,
                at,
            })
        }
        Term::Not(body) => {
            let body = dropped_boxed(alloc, body, pair)?;
            Ok(Term::Not(body))
        }
        Term::And(parts) => {
            let parts = without(alloc, parts.as_slice(), pair)?;
            Ok(Term::And(parts))
        }
        Term::Or(parts) => {
            let parts = dropped_all(alloc, parts.as_slice(), pair)?;
            Ok(Term::Or(parts))
        }
        Term::If { test, yes, no } => {
            let test = dropped_boxed(alloc, test, pair)?;
            let yes = dropped_boxed(alloc, yes, pair)?;
            let no = dropped_boxed(alloc, no, pair)?;
            Ok(Term::If { test, yes, no })
        }
        Term::Same { left, right } => {
            let left = dropped_boxed(alloc, left, pair)?;
            let right = dropped_boxed(alloc, right, pair)?;
            Ok(Term::Same { left, right })
        }
        Term::Less { left, right } => {
            let left = dropped_boxed(alloc, left, pair)?;
            let right = dropped_boxed(alloc, right, pair)?;
            Ok(Term::Less { left, right })
        }
        Term::Arith { op, left, right } => {
            let left = dropped_boxed(alloc, left, pair)?;
            let right = dropped_boxed(alloc, right, pair)?;
            Ok(Term::Arith {
                op: *op,
                left,
                right,
            })
        }
        Term::Quantified { all, body } => {
            let body = dropped_boxed(alloc, body, pair)?;
            Ok(Term::Quantified { all: *all, body })
        }
    }
}

#[cycle(dropped)]
fn dropped_boxed(alloc: Global, t: &Boxed<Term>, pair: Pair) -> Result<Boxed<Term>, Memory>
    ensures { IfOk result (λ out. out ≡ dropped pair.axis pair.variable t.now) }
{
    let out = dropped(alloc, t.get(), pair)?;
    let out = Boxed::new(alloc, out)?;
    Ok(out)
}

#[cycle(dropped)]
fn dropped_all(alloc: Global, all: &[Term], pair: Pair) -> Result<Items<Term>, Memory>
    ensures { IfOk result (λ out. out ≡ map (dropped pair.axis pair.variable) all.now) }
{
    let mut out = Items::new(alloc);
    for one in all {
        let done = dropped(alloc, one, pair)?;
        out.push(done)?;
    }
    Ok(out)
}

/// The parts of a conjunction but for the comparison.
#[cycle(dropped)]
fn without(alloc: Global, all: &[Term], pair: Pair) -> Result<Items<Term>, Memory>
    ensures { IfOk result (λ out. out ≡ list_without pair.axis pair.variable all.now) }
{
    let mut out = Items::new(alloc);
    for one in all {
        out = with_part(alloc, one, out, pair)?;
    }
    Ok(out)
}

#[cycle(dropped)]
fn with_part(
    alloc: Global,
    one: &Term,
    front: Items<Term>,
    pair: Pair,
) -> Result<Items<Term>, Memory>
    ensures { IfOk result (λ out. out ≡ front ++ kept_part pair.axis pair.variable one.now) }
{
    if is_comparison(pair, one) {
        return Ok(front);
    }
    let done = dropped(alloc, one, pair)?;
    let mut out = front;
    out.push(done)?;
    Ok(out)
}
