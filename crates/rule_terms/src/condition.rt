//! What is asked of values: that indices fit, that a stored value is in its range, and that the result of an
//! operation is a number.

#![tactic(auto, using(crate::proofs::ConditionEquations::conditions))]

ghost use Rattle.std.specs.Prelude.{◌≡◌, ◌∷◌, ◌++◌, [], map, IfOk};
ghost use Rattle.term_core.specs.declared.term.Term.{Known, Not, And, If, Same, Less, Arith};
ghost use Rattle.term_core.specs.declared.value.Value.TheVariants.{Number};
ghost use Rattle.term_core.specs.declared.value.ArithOp.TheVariants.{Add, Divide};
ghost use Rattle.rule_inline.specs.Demands.{demand};
ghost use Rattle.rule_inline.specs.Parts.{bounds, at_most, index_fits, range_fits, stored_fits, whole, lowest, highest, minus_one, product_fits, result_fits};
ghost use Rattle.rule_terms.specs.Gathered.{seen_demands};

use crate::build::{
    arith, at_most, choice, is_defined, less, not, one, same, truth, two, undefined,
};
use crate::demand::{Demands, and_one};
use murphi_typed::types::Simple;
use sqlite_items::Items;
use std::alloc::Global;
use term_core::term::Term;
use term_core::text::Memory;
use term_core::value::{ArithOp, Value};

fn known(n: i16) -> Term
    ensures { result ≡ Known (Number n) }
{
    Term::Known(Value::Number(n))
}

/// The number 0.
pub fn zero() -> Term
    ensures { result ≡ whole 0 }
{
    Term::Known(Value::Number(0))
}

fn lowest() -> Term
    ensures { result ≡ lowest }
{
    Term::Known(Value::Number(-32768))
}

fn highest() -> Term
    ensures { result ≡ highest }
{
    Term::Known(Value::Number(32767))
}

fn minus_one() -> Term
    ensures { result ≡ minus_one }
{
    Term::Known(Value::Number(-1))
}

/// What a range asks of a number.
fn bounds(alloc: Global, of: Simple, e: &Term) -> Result<Items<Term>, Memory>
    ensures { IfOk result (λ ts. ts ≡ bounds of e.now) }
{
    match of {
        Simple::Range { low, high } => {
            let below = e.copy(alloc)?;
            let above = e.copy(alloc)?;
            let low = at_most(alloc, known(low), below)?;
            let high = at_most(alloc, above, known(high))?;
            let ts = two(alloc, low, high)?;
            Ok(ts)
        }
        Simple::Truth | Simple::Listed { .. } | Simple::Scalarset { .. } | Simple::Node => {
            Ok(Items::new(alloc))
        }
    }
}

/// An index is defined and in the index type.
pub fn index_fits(alloc: Global, over: Simple, e: &Term) -> Result<Term, Memory>
    ensures { IfOk result (λ t. t ≡ index_fits over e.now) }
{
    let copied = e.copy(alloc)?;
    let defined = is_defined(alloc, copied)?;
    let mut parts = one(alloc, defined)?;
    let bounds = bounds(alloc, over, e)?;
    parts.append(bounds)?;
    Ok(Term::And(parts))
}

fn range_fits(alloc: Global, plain: bool, e: &Term, tests: Items<Term>) -> Result<Demands, Memory>
    ensures { IfOk result (λ d. seen_demands d ≡ range_fits plain e.now tests) }
{
    if tests.len() == 0 {
        return Ok(Demands::Nothing);
    }
    let within = Term::And(tests);
    if plain {
        let e = e.copy(alloc)?;
        let no_value = same(alloc, e, undefined())?;
        let parts = two(alloc, no_value, within)?;
        Ok(Demands::One(Term::Or(parts)))
    } else {
        Ok(Demands::One(within))
    }
}

/// A value is in the range of the place that it is to be stored in; a plain designator may be undefined.
pub fn stored_fits(alloc: Global, plain: bool, into: Simple, e: &Term) -> Result<Demands, Memory>
    ensures { IfOk result (λ d. seen_demands d ≡ stored_fits plain into e.now) }
{
    let tests = bounds(alloc, into, e)?;
    let d = range_fits(alloc, plain, e, tests)?;
    Ok(d)
}

/// That a bound with a part taken from it, or divided by it, is not less than the other part.
fn bound_above(
    alloc: Global,
    left: &Term,
    op: ArithOp,
    bound: Term,
    right: &Term,
) -> Result<Term, Memory>
    ensures { IfOk result (λ t. t ≡ at_most left.now (Arith op bound right.now)) }
{
    let left = left.copy(alloc)?;
    let right = right.copy(alloc)?;
    let bound = arith(alloc, op, bound, right)?;
    let t = at_most(alloc, left, bound)?;
    Ok(t)
}

fn bound_below(
    alloc: Global,
    left: &Term,
    op: ArithOp,
    bound: Term,
    right: &Term,
) -> Result<Term, Memory>
    ensures { IfOk result (λ t. t ≡ at_most (Arith op bound right.now) left.now) }
{
    let left = left.copy(alloc)?;
    let right = right.copy(alloc)?;
    let bound = arith(alloc, op, bound, right)?;
    let t = at_most(alloc, bound, left)?;
    Ok(t)
}

fn is_positive(alloc: Global, right: &Term) -> Result<Term, Memory>
    ensures { IfOk result (λ t. t ≡ Less (whole 0) right.now) }
{
    let right = right.copy(alloc)?;
    let t = less(alloc, zero(), right)?;
    Ok(t)
}

fn is_it(alloc: Global, e: &Term, other: Term) -> Result<Term, Memory>
    ensures { IfOk result (λ t. t ≡ Same e.now other) }
{
    let e = e.copy(alloc)?;
    let t = same(alloc, e, other)?;
    Ok(t)
}

fn is_not(alloc: Global, e: &Term, other: Term) -> Result<Term, Memory>
    ensures { IfOk result (λ t. t ≡ Not (Same e.now other)) }
{
    let t = is_it(alloc, e, other)?;
    let t = not(alloc, t)?;
    Ok(t)
}

fn product_where_negative(alloc: Global, left: &Term, right: &Term) -> Result<Term, Memory>
    ensures { IfOk result (λ t. t ≡ And (at_most (Arith Divide highest right.now) left.now ∷ at_most left.now (Arith Divide lowest right.now) ∷ [])) }
{
    let below = bound_below(alloc, left, ArithOp::Divide, highest(), right)?;
    let above = bound_above(alloc, left, ArithOp::Divide, lowest(), right)?;
    let parts = two(alloc, below, above)?;
    Ok(Term::And(parts))
}

fn product_where_positive(alloc: Global, left: &Term, right: &Term) -> Result<Term, Memory>
    ensures { IfOk result (λ t. t ≡ And (at_most left.now (Arith Divide highest right.now) ∷ at_most (Arith Divide lowest right.now) left.now ∷ [])) }
{
    let above = bound_above(alloc, left, ArithOp::Divide, highest(), right)?;
    let below = bound_below(alloc, left, ArithOp::Divide, lowest(), right)?;
    let parts = two(alloc, above, below)?;
    Ok(Term::And(parts))
}

/// A product is in range: each bound is divided by the right part.
fn product_fits(alloc: Global, left: &Term, right: &Term) -> Result<Term, Memory>
    ensures { IfOk result (λ t. t ≡ product_fits left.now right.now) }
{
    let negative = product_where_negative(alloc, left, right)?;
    let is_minus_one = is_it(alloc, right, minus_one())?;
    let turned = is_not(alloc, left, lowest())?;
    let t = choice(alloc, is_minus_one, turned, negative)?;
    let is_zero = is_it(alloc, right, zero())?;
    let t = choice(alloc, is_zero, truth(true), t)?;
    let positive = is_positive(alloc, right)?;
    let product = product_where_positive(alloc, left, right)?;
    let t = choice(alloc, positive, product, t)?;
    Ok(t)
}

fn sum_fits(
    alloc: Global,
    left: &Term,
    right: &Term,
    op: ArithOp,
    yes: Term,
    no: Term,
) -> Result<Term, Memory>
    ensures { IfOk result (λ t. t ≡ If (Less (whole 0) right.now) (at_most left.now (Arith op yes right.now)) (at_most (Arith op no right.now) left.now)) }
{
    let positive = is_positive(alloc, right)?;
    let above = bound_above(alloc, left, op, yes, right)?;
    let below = bound_below(alloc, left, op, no, right)?;
    let t = choice(alloc, positive, above, below)?;
    Ok(t)
}

fn difference_fits(alloc: Global, left: &Term, right: &Term) -> Result<Term, Memory>
    ensures { IfOk result (λ t. t ≡ If (Less (whole 0) right.now) (at_most (Arith Add lowest right.now) left.now) (at_most left.now (Arith Add highest right.now))) }
{
    let positive = is_positive(alloc, right)?;
    let below = bound_below(alloc, left, ArithOp::Add, lowest(), right)?;
    let above = bound_above(alloc, left, ArithOp::Add, highest(), right)?;
    let t = choice(alloc, positive, below, above)?;
    Ok(t)
}

fn quotient_fits(alloc: Global, left: &Term, right: &Term) -> Result<Items<Term>, Memory>
    ensures { IfOk result (λ ts. ts ≡ result_fits Divide left.now right.now) }
{
    let divides = is_not(alloc, right, zero())?;
    let left = is_it(alloc, left, lowest())?;
    let right = is_it(alloc, right, minus_one())?;
    let parts = two(alloc, left, right)?;
    let within = not(alloc, Term::And(parts))?;
    let ts = two(alloc, divides, within)?;
    Ok(ts)
}

/// What an operation demands of its parts so that its result is a number that fits.
fn result_fits(alloc: Global, op: ArithOp, left: &Term, right: &Term) -> Result<Items<Term>, Memory>
    ensures { IfOk result (λ ts. ts ≡ result_fits op left.now right.now) }
{
    match op {
        ArithOp::Add => {
            let t = sum_fits(alloc, left, right, ArithOp::Subtract, highest(), lowest())?;
            let ts = one(alloc, t)?;
            Ok(ts)
        }
        ArithOp::Subtract => {
            let t = difference_fits(alloc, left, right)?;
            let ts = one(alloc, t)?;
            Ok(ts)
        }
        ArithOp::Times => {
            let t = product_fits(alloc, left, right)?;
            let ts = one(alloc, t)?;
            Ok(ts)
        }
        ArithOp::Divide => {
            let ts = quotient_fits(alloc, left, right)?;
            Ok(ts)
        }
        ArithOp::Modulo => {
            let t = is_not(alloc, right, zero())?;
            let ts = one(alloc, t)?;
            Ok(ts)
        }
    }
}

fn with_demand(alloc: Global, front: Demands, test: &Term) -> Result<Demands, Memory>
    ensures { IfOk result (λ d. seen_demands d ≡ seen_demands front ++ demand test.now ∷ []) }
{
    let test = test.copy(alloc)?;
    let d = and_one(alloc, front, test)?;
    Ok(d)
}

fn each_demanded(alloc: Global, front: Demands, tests: &[Term]) -> Result<Demands, Memory>
    ensures { IfOk result (λ d. seen_demands d ≡ seen_demands front ++ map demand tests.now) }
{
    let mut out = front;
    for test in tests {
        out = with_demand(alloc, out, test)?;
    }
    Ok(out)
}

/// What is demanded of the parts of an operation.
pub fn operation_fits(
    alloc: Global,
    front: Demands,
    op: ArithOp,
    left: &Term,
    right: &Term,
) -> Result<Demands, Memory>
    ensures { IfOk result (λ d. seen_demands d ≡ seen_demands front ++ map demand (result_fits op left.now right.now)) }
{
    let tests = result_fits(alloc, op, left, right)?;
    let d = each_demanded(alloc, front, tests.as_slice())?;
    Ok(d)
}
