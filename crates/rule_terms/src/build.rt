//! Terms made of terms: the forms, lists of variables, and terms for longer frames.

#![tactic(auto, using(crate::proofs::BuildEquations::building))]

ghost use Rattle.std.specs.Prelude.{◌≡◌, ◌+◌, ◌∷◌, [], map, true, false, IfOk};
ghost use Rattle.term_core.specs.declared.term.Term.{Known, Var, Not, And, Or, If, Same, Less, Arith, Quantified};
ghost use Rattle.term_core.specs.declared.value.Value.TheVariants.{Truth, Number, Undefined};
ghost use Rattle.term_core.specs.Substitution.{lifted};
ghost use Rattle.rule_inline.specs.Tables.{variables, lifted_all};
ghost use Rattle.rule_inline.specs.Demands.{truth_term, is_constant_false};
ghost use Rattle.rule_inline.specs.Parts.{undefined, is_defined, at_most};

use sqlite_items::{Boxed, Items};
use std::alloc::Global;
use term_core::substitute::place;
use term_core::term::Term;
use term_core::text::Memory;
use term_core::value::{ArithOp, Value};

/// A sum of numbers of variables; one past the greatest u32 is want of memory, here and below.
pub fn added(a: u32, b: u32) -> Result<u32, Memory>
    ensures { IfOk result (λ n. n ≡ a + b) }
{
    match a.checked_add(b) {
        Some(sum) => Ok(sum),
        None => Err(Memory),
    }
}

fn boxed(alloc: Global, t: Term) -> Result<Boxed<Term>, Memory>
    ensures { IfOk result (λ b. b ≡ t) }
{
    let b = Boxed::new(alloc, t)?;
    Ok(b)
}

/// The term that is always undefined.
pub fn undefined() -> Term
    ensures { result ≡ undefined }
{
    Term::Known(Value::Undefined)
}

/// The term that is always this truth value.
pub fn truth(b: bool) -> Term
    ensures { result ≡ truth_term b }
{
    Term::Known(Value::Truth(b))
}

/// Whether a term is the constant false.
pub fn is_false(t: &Term) -> bool
    ensures { result ≡ is_constant_false t.now }
{
    match t {
        Term::Known(Value::Truth(b)) => !*b,
        Term::Known(_)
        | Term::Var(_)
        | Term::Read { .. }
        | Term::Not(_)
        | Term::And(_)
        | Term::Or(_)
        | Term::If { .. }
        | Term::Same { .. }
        | Term::Less { .. }
        | Term::Arith { .. }
        | Term::Quantified { .. } => false,
    }
}

pub fn not(alloc: Global, t: Term) -> Result<Term, Memory>
    ensures { IfOk result (λ r. r ≡ Not t) }
{
    let t = boxed(alloc, t)?;
    Ok(Term::Not(t))
}

/// The second term where the first is true, else the third.
pub fn choice(alloc: Global, test: Term, yes: Term, no: Term) -> Result<Term, Memory>
    ensures { IfOk result (λ r. r ≡ If test yes no) }
{
    let test = boxed(alloc, test)?;
    let yes = boxed(alloc, yes)?;
    let no = boxed(alloc, no)?;
    Ok(Term::If { test, yes, no })
}

pub fn same(alloc: Global, left: Term, right: Term) -> Result<Term, Memory>
    ensures { IfOk result (λ r. r ≡ Same left right) }
{
    let left = boxed(alloc, left)?;
    let right = boxed(alloc, right)?;
    Ok(Term::Same { left, right })
}

pub fn less(alloc: Global, left: Term, right: Term) -> Result<Term, Memory>
    ensures { IfOk result (λ r. r ≡ Less left right) }
{
    let left = boxed(alloc, left)?;
    let right = boxed(alloc, right)?;
    Ok(Term::Less { left, right })
}

pub fn arith(alloc: Global, op: ArithOp, left: Term, right: Term) -> Result<Term, Memory>
    ensures { IfOk result (λ r. r ≡ Arith op left right) }
{
    let left = boxed(alloc, left)?;
    let right = boxed(alloc, right)?;
    Ok(Term::Arith { op, left, right })
}

/// The body for all nodes, or for one of them where `all` is false.
pub fn quantified(alloc: Global, all: bool, body: Term) -> Result<Term, Memory>
    ensures { IfOk result (λ r. r ≡ Quantified all body) }
{
    let body = boxed(alloc, body)?;
    Ok(Term::Quantified { all, body })
}

pub fn one(alloc: Global, t: Term) -> Result<Items<Term>, Memory>
    ensures { IfOk result (λ ts. ts ≡ t ∷ []) }
{
    let mut out = Items::new(alloc);
    out.push(t)?;
    Ok(out)
}

pub fn two(alloc: Global, first: Term, second: Term) -> Result<Items<Term>, Memory>
    ensures { IfOk result (λ ts. ts ≡ first ∷ second ∷ []) }
{
    let mut out = Items::new(alloc);
    out.push(first)?;
    out.push(second)?;
    Ok(out)
}

/// That a term has a value.
pub fn is_defined(alloc: Global, t: Term) -> Result<Term, Memory>
    ensures { IfOk result (λ r. r ≡ is_defined t) }
{
    let t = same(alloc, t, undefined())?;
    let t = not(alloc, t)?;
    Ok(t)
}

/// That the first number is not greater than the second.
pub fn at_most(alloc: Global, left: Term, right: Term) -> Result<Term, Memory>
    ensures { IfOk result (λ r. r ≡ at_most left right) }
{
    let t = less(alloc, right, left)?;
    let t = not(alloc, t)?;
    Ok(t)
}

/// So many variables, from this one on.
pub fn variables(alloc: Global, first: u32, count: u32) -> Result<Items<Term>, Memory>
    ensures { IfOk result (λ ts. ts ≡ variables first count) }
{
    let mut out = Items::new(alloc);
    for k in 0..count {
        let number = added(first, k)?;
        out.push(Term::Var(number))?;
    }
    Ok(out)
}

/// The term for frames of `more` variables more after the first `frame`, which it does not speak of.
pub fn lift(alloc: Global, t: &Term, frame: u32, more: u32) -> Result<Term, Memory>
    ensures { IfOk result (λ r. r ≡ lifted frame more t.now) }
{
    let to = added(frame, more)?;
    let names = variables(alloc, 0, frame)?;
    let t = place(alloc, t, to, names.as_slice())?;
    Ok(t)
}

/// The terms for such frames.
pub fn lift_all(alloc: Global, all: &[Term], frame: u32, more: u32) -> Result<Items<Term>, Memory>
    ensures { IfOk result (λ ts. ts ≡ lifted_all frame more all.now) }
{
    let mut out = Items::new(alloc);
    for one in all {
        let t = lift(alloc, one, frame, more)?;
        out.push(t)?;
    }
    Ok(out)
}
