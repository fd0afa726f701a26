//! What operators make of the terms of their parts.

#![tactic(auto, using(crate::proofs::OperatorEquations::operators))]

ghost use Rattle.std.specs.Prelude.{◌≡◌, ◌++◌, ◌∷◌, [], IfOk};
ghost use Rattle.rule_inline.specs.Demands.{under_test};
ghost use Rattle.rule_terms.specs.Gathered.{seen_demands};
ghost use Rattle.rule_inline.specs.Parts.{calculated, joined, after, negated, compared, compared_values, implied, choice, over_nodes, whole};
ghost use Rattle.term_core.specs.declared.term.Term.{Known, Not as Fails, Or as EitherOf};
ghost use Rattle.term_core.specs.declared.value.ArithOp.TheVariants.{Subtract};
ghost use Rattle.murphi_ast.specs.declared.expr.ChainOp.TheVariants.{Or, And};
ghost use Rattle.rule_terms.specs.declared.demand.Demands.{Nothing};
ghost use Rattle.rule_forms.specs.Seen.{seen_valued, seen_instances};
ghost use Rattle.rule_forms.specs.Words.{no_instances, instance_on, of_instances};

use crate::site::Valued;
use murphi_ast::expr::{ChainOp, CompareOp};
use rule_terms::build::{arith, choice as if_term, less, not, quantified, same, two};
use rule_terms::condition::{operation_fits, zero};
use rule_terms::demand::{Demands, binding, both, under};
use sqlite_items::Items;
use std::alloc::Global;
use term_core::term::Term;
use term_core::text::Memory;
use term_core::value::{ArithOp, Value};

pub fn known(v: Value) -> Valued
    ensures term { result.term ≡ Known v }
    ensures demands { result.demands ≡ Nothing }
{
    Valued {
        term: Term::Known(v),
        demands: Demands::Nothing,
    }
}

/// An operation on a term and the value after it.
fn calculated(alloc: Global, op: ArithOp, left: Term, right: Valued) -> Result<Valued, Memory>
    ensures { IfOk result (λ v. seen_valued v ≡ calculated op left (seen_valued right)) }
{
    let demands = operation_fits(alloc, right.demands, op, &left, &right.term)?;
    let term = arith(alloc, op, left, right.term)?;
    Ok(Valued { term, demands })
}

pub fn minus(alloc: Global, e: Valued) -> Result<Valued, Memory>
    ensures { IfOk result (λ v. seen_valued v ≡ calculated Subtract (whole 0) (seen_valued e)) }
{
    let v = calculated(alloc, ArithOp::Subtract, zero(), e)?;
    Ok(v)
}

pub fn negated(alloc: Global, e: Valued) -> Result<Valued, Memory>
    ensures { IfOk result (λ v. seen_valued v ≡ negated (seen_valued e)) }
{
    let term = not(alloc, e.term)?;
    Ok(Valued {
        term,
        demands: e.demands,
    })
}

/// What is demanded where a term is false.
fn where_false(alloc: Global, frame: u32, term: &Term, inner: Demands) -> Result<Demands, Memory>
    ensures { IfOk result (λ d. seen_demands d ≡ under_test frame (Fails term.now) (seen_demands inner)) }
{
    let copied = term.copy(alloc)?;
    let test = not(alloc, copied)?;
    let d = under(alloc, frame, test, inner)?;
    Ok(d)
}

fn either(alloc: Global, frame: u32, left: Term, right: Valued) -> Result<Valued, Memory>
    ensures { IfOk result (λ v. seen_valued v ≡ joined frame Or left (seen_valued right)) }
{
    let demands = where_false(alloc, frame, &left, right.demands)?;
    let parts = two(alloc, left, right.term)?;
    Ok(Valued {
        term: Term::Or(parts),
        demands,
    })
}

fn together(alloc: Global, frame: u32, left: Term, right: Valued) -> Result<Valued, Memory>
    ensures { IfOk result (λ v. seen_valued v ≡ joined frame And left (seen_valued right)) }
{
    let test = left.copy(alloc)?;
    let demands = under(alloc, frame, test, right.demands)?;
    let parts = two(alloc, left, right.term)?;
    Ok(Valued {
        term: Term::And(parts),
        demands,
    })
}

fn joined(
    alloc: Global,
    frame: u32,
    op: ChainOp,
    left: Term,
    right: Valued,
) -> Result<Valued, Memory>
    ensures { IfOk result (λ v. seen_valued v ≡ joined frame op left (seen_valued right)) }
{
    match op {
        ChainOp::Or => {
            let v = either(alloc, frame, left, right)?;
            Ok(v)
        }
        ChainOp::And => {
            let v = together(alloc, frame, left, right)?;
            Ok(v)
        }
        ChainOp::Add => {
            let v = calculated(alloc, ArithOp::Add, left, right)?;
            Ok(v)
        }
        ChainOp::Subtract => {
            let v = calculated(alloc, ArithOp::Subtract, left, right)?;
            Ok(v)
        }
        ChainOp::Times => {
            let v = calculated(alloc, ArithOp::Times, left, right)?;
            Ok(v)
        }
        ChainOp::Divide => {
            let v = calculated(alloc, ArithOp::Divide, left, right)?;
            Ok(v)
        }
        ChainOp::Modulo => {
            let v = calculated(alloc, ArithOp::Modulo, left, right)?;
            Ok(v)
        }
    }
}

/// One more operand of a chain, after those before it.
pub fn chained(
    alloc: Global,
    frame: u32,
    op: ChainOp,
    before: Valued,
    operand: Valued,
) -> Result<Valued, Memory>
    ensures { IfOk result (λ v. seen_valued v ≡ after (seen_valued before).demands (joined frame op before.term (seen_valued operand))) }
{
    let v = joined(alloc, frame, op, before.term, operand)?;
    let demands = both(alloc, before.demands, v.demands)?;
    Ok(Valued {
        term: v.term,
        demands,
    })
}

fn compared(alloc: Global, by: CompareOp, left: Term, right: Term) -> Result<Term, Memory>
    ensures { IfOk result (λ t. t ≡ compared by left right) }
{
    match by {
        CompareOp::Equal => {
            let t = same(alloc, left, right)?;
            Ok(t)
        }
        CompareOp::NotEqual => {
            let t = same(alloc, left, right)?;
            let t = not(alloc, t)?;
            Ok(t)
        }
        CompareOp::Less => {
            let t = less(alloc, left, right)?;
            Ok(t)
        }
        CompareOp::LessEqual => {
            let t = less(alloc, right, left)?;
            let t = not(alloc, t)?;
            Ok(t)
        }
        CompareOp::Greater => {
            let t = less(alloc, right, left)?;
            Ok(t)
        }
        CompareOp::GreaterEqual => {
            let t = less(alloc, left, right)?;
            let t = not(alloc, t)?;
            Ok(t)
        }
    }
}

pub fn compared_values(
    alloc: Global,
    by: CompareOp,
    left: Valued,
    right: Valued,
) -> Result<Valued, Memory>
    ensures { IfOk result (λ v. seen_valued v ≡ compared_values by (seen_valued left) (seen_valued right)) }
{
    let term = compared(alloc, by, left.term, right.term)?;
    let demands = both(alloc, left.demands, right.demands)?;
    Ok(Valued { term, demands })
}

/// That the left side is false, or the right side true.
fn implication(alloc: Global, left: Term, right: Term) -> Result<Term, Memory>
    ensures { IfOk result (λ t. t ≡ EitherOf (Fails left ∷ right ∷ [])) }
{
    let fails = not(alloc, left)?;
    let parts = two(alloc, fails, right)?;
    Ok(Term::Or(parts))
}

/// The right side is asked where the left side is true.
fn implied_demands(
    alloc: Global,
    frame: u32,
    left: &Term,
    first: Demands,
    second: Demands,
) -> Result<Demands, Memory>
    ensures { IfOk result (λ d. seen_demands d ≡ seen_demands first ++ under_test frame left.now (seen_demands second)) }
{
    let test = left.copy(alloc)?;
    let rest = under(alloc, frame, test, second)?;
    let d = both(alloc, first, rest)?;
    Ok(d)
}

pub fn implied(alloc: Global, frame: u32, left: Valued, right: Valued) -> Result<Valued, Memory>
    ensures { IfOk result (λ v. seen_valued v ≡ implied frame (seen_valued left) (seen_valued right)) }
{
    let first = left.demands;
    let second = right.demands;
    let demands = implied_demands(alloc, frame, &left.term, first, second)?;
    let term = implication(alloc, left.term, right.term)?;
    Ok(Valued { term, demands })
}

pub fn choice(
    alloc: Global,
    frame: u32,
    test: Valued,
    yes: Valued,
    no: Valued,
) -> Result<Valued, Memory>
    ensures { IfOk result (λ v. seen_valued v ≡ choice frame (seen_valued test) (seen_valued yes) (seen_valued no)) }
{
    let holds = test.term.copy(alloc)?;
    let copied = test.term.copy(alloc)?;
    let fails = not(alloc, copied)?;
    let first = under(alloc, frame, holds, yes.demands)?;
    let second = under(alloc, frame, fails, no.demands)?;
    let rest = both(alloc, first, second)?;
    let demands = both(alloc, test.demands, rest)?;
    let term = if_term(alloc, test.term, yes.term, no.term)?;
    Ok(Valued { term, demands })
}

/// For all nodes, or for one of them.
pub fn over_nodes(alloc: Global, all: bool, body: Valued) -> Result<Valued, Memory>
    ensures { IfOk result (λ v. seen_valued v ≡ over_nodes all (seen_valued body)) }
{
    let term = quantified(alloc, all, body.term)?;
    let demands = binding(alloc, body.demands)?;
    Ok(Valued { term, demands })
}

/// The terms of instances, with what they demand.
#[derive(Drop)]
pub struct Instances {
    pub terms: Items<Term>,
    pub demands: Demands,
}

pub fn no_instances(alloc: Global) -> Instances
    ensures { seen_instances result ≡ no_instances }
{
    Instances {
        terms: Items::new(alloc),
        demands: Demands::Nothing,
    }
}

pub fn with_instance(alloc: Global, front: Instances, e: Valued) -> Result<Instances, Memory>
    ensures { IfOk result (λ i. seen_instances i ≡ instance_on (seen_instances front) (seen_valued e)) }
{
    let mut terms = front.terms;
    terms.push(e.term)?;
    let demands = both(alloc, front.demands, e.demands)?;
    Ok(Instances { terms, demands })
}

/// All instances, or one of them.
pub fn over_values(all: bool, instances: Instances) -> Valued
    ensures { seen_valued result ≡ of_instances all (seen_instances instances) }
{
    if all {
        Valued {
            term: Term::And(instances.terms),
            demands: instances.demands,
        }
    } else {
        Valued {
            term: Term::Or(instances.terms),
            demands: instances.demands,
        }
    }
}
