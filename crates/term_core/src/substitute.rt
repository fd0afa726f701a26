//! Terms in place of variables: one walk over a term, which asks at each variable what comes there.

#![tactic(auto, using(crate::proofs::TreeEquations::trees))]

ghost use Rattle.std.specs.Prelude.{◌≡◌, ℕ, ◌+◌, ◌<◌, ◌≤◌, List, length, map, slice_set, IfOk, IsTrue};
ghost use Rattle.term_core.specs.declared.term.Term.{Term, Var};
ghost use Rattle.term_core.specs.declared.value.Value.TheVariants.{Node};
ghost use Rattle.term_core.specs.declared.machine.CellFamily.{CellFamily};
ghost use Rattle.term_core.specs.Meaning.{Cells, value_of};
ghost use Rattle.term_core.specs.Variables.{free_variables, fits};
ghost use Rattle.term_core.specs.Substitution.{replaced, lifted_variable, lifted, substituted_variable, substituted, placed_variable, placed};

use crate::term::Term;
use crate::text::Memory;
use sqlite_items::{Boxed, Items};
use std::alloc::Global;

/// The term with `by` in place of a variable, for frames of `depth` variables. Where the value of
/// `by` is a node, the answer has the value that the term has with the variable bound to it. A
/// number of a variable that would pass `u32` is answered as want of memory.
pub fn substitute(alloc: Global, t: &Term, depth: u32, var: u32, by: &Term) -> Result<Term, Memory>
    requires variable { var < depth }
    requires term { free_variables t.now ≤ depth }
    requires other { free_variables by.now ≤ depth }
    ensures tree { IfOk result (λ out. out ≡ substituted depth var by.now t.now) }
    ensures value { IfOk result (λ out. (N : ℕ) (cells : Cells) (frame : List ℕ) (n : ℕ) → length frame ≡ depth → value_of N cells frame by.now ≡ Node n → value_of N cells frame out ≡ value_of N cells (slice_set frame var n) t.now) }
    ensures variables { IfOk result (λ out. free_variables out ≤ depth) }
    ensures reads { IfOk result (λ out. (families : List CellFamily) → IsTrue (fits families t.now) → IsTrue (fits families by.now) → IsTrue (fits families out)) }
{
    let one = One { depth, var, by };
    let out = walk(alloc, t, 0, &one)?;
    Ok(out)
}

/// The term for frames of `to` variables in which all variables of its own frame are replaced at
/// once: variable k is the k-th of these terms, and the variables past them, which quantifiers bind,
/// are numbered from `to` up. `laws::placing_keeps_values` says what it means. A number of a variable
/// that would pass `u32` is answered as want of memory.
pub fn place(alloc: Global, t: &Term, to: u32, terms: &[Term]) -> Result<Term, Memory>
    ensures { IfOk result (λ out. out ≡ placed to terms.now t.now) }
{
    let all = All { to, terms };
    let out = walk(alloc, t, 0, &all)?;
    Ok(out)
}

/// A term equal to this one.
pub(crate) fn same(alloc: Global, t: &Term) -> Result<Term, Memory>
    ensures { IfOk result (λ out. out ≡ t.now) }
{
    let out = walk(alloc, t, 0, &Itself)?;
    Ok(out)
}

/// What comes in place of variables.
trait Replacement {
    /// The term for a variable under so many quantifiers.
    ghost rule: { Self → ℕ → ℕ → Term };

    fn variable(&self, alloc: Global, under: u32, number: u32) -> Result<Term, Memory>
        ensures { IfOk result (λ out. out ≡ rule self.now under number) };
}

/// Each variable by itself.
#[derive(Clone, Copy)]
struct Itself;

impl Replacement for Itself {
    ghost rule = { λ _ _ k. Var k };

    fn variable(&self, _alloc: Global, _under: u32, number: u32) -> Result<Term, Memory> {
        Ok(Term::Var(number))
    }
}

/// Room for more variables after the first `depth`.
#[derive(Clone, Copy)]
struct Room {
    depth: u32,
    more: u32,
}

impl Replacement for Room {
    ghost rule = { λ l. lifted_variable l.depth l.more };

    fn variable(&self, _alloc: Global, _under: u32, number: u32) -> Result<Term, Memory> {
        if number < self.depth {
            Ok(Term::Var(number))
        } else {
            let number = moved(number, self.more)?;
            Ok(Term::Var(number))
        }
    }
}

/// A term in place of one variable, in frames of how many variables.
#[derive(Clone, Copy)]
struct One<'a> {
    depth: u32,
    var: u32,
    by: &'a Term,
}

impl<'a> Replacement for One<'a> {
    ghost rule = { λ o. substituted_variable o.depth o.var o.by.now };

    fn variable(&self, alloc: Global, under: u32, number: u32) -> Result<Term, Memory> {
        if number == self.var {
            let out = lift(alloc, self.by, self.depth, under)?;
            Ok(out)
        } else {
            Ok(Term::Var(number))
        }
    }
}

/// Terms in place of all variables, for frames of how many variables.
#[derive(Clone, Copy)]
struct All<'a> {
    to: u32,
    terms: &'a [Term],
}

impl<'a> Replacement for All<'a> {
    ghost rule = { λ a. placed_variable a.to a.terms.now };

    fn variable(&self, alloc: Global, under: u32, number: u32) -> Result<Term, Memory> {
        let at = number as usize;
        if at < self.terms.len() {
            let out = lift(alloc, &self.terms[at], self.to, under)?;
            Ok(out)
        } else {
            let number = past(at - self.terms.len(), self.to)?;
            Ok(Term::Var(number))
        }
    }
}

/// A number that others move.
fn moved(number: u32, more: u32) -> Result<u32, Memory>
    ensures { IfOk result (λ n. n ≡ number + more) }
{
    match number.checked_add(more) {
        Some(n) => Ok(n),
        None => Err(Memory),
    }
}

/// The number of a variable past those of a frame.
fn past(inner: usize, to: u32) -> Result<u32, Memory>
    ensures { IfOk result (λ n. n ≡ to + inner) }
{
    match u32::try_from(inner) {
        Ok(inner) => {
            let number = moved(to, inner)?;
            Ok(number)
        }
        Err(_) => Err(Memory),
    }
}

/// The term for frames of `more` variables more after the first `depth`, which it does not speak of.
fn lift(alloc: Global, t: &Term, depth: u32, more: u32) -> Result<Term, Memory>
    ensures { IfOk result (λ out. out ≡ lifted depth more t.now) }
{
    let out = walk(alloc, t, 0, &Room { depth, more })?;
    Ok(out)
}

fn boxed(alloc: Global, t: Term) -> Result<Boxed<Term>, Memory>
    ensures { IfOk result (λ b. b ≡ t) }
{
    let b = Boxed::new(alloc, t)?;
    Ok(b)
}

/// The term with its variables replaced, under so many quantifiers.
#[cycle(walk)]
fn walk<R: Replacement>(alloc: Global, t: &Term, under: u32, by: &R) -> Result<Term, Memory>
    ensures { IfOk result (λ out. out ≡ replaced (R.rule by.now) under t.now) }
{
    match t {
        Term::Known(value) => Ok(Term::Known(*value)),
        Term::Var(number) => {
            let out = by.variable(alloc, under, *number)?;
            Ok(out)
        }
        Term::Read { family, at } => {
            let at = walk_all(alloc, at.as_slice(), under, by)?;
            Ok(Term::Read {
                family: *family,
                at,
            })
        }
        Term::Not(body) => {
            let body = walk_boxed(alloc, body, under, by)?;
            Ok(Term::Not(body))
        }
        Term::And(parts) => {
            let parts = walk_all(alloc, parts.as_slice(), under, by)?;
            Ok(Term::And(parts))
        }
        Term::Or(parts) => {
            let parts = walk_all(alloc, parts.as_slice(), under, by)?;
            Ok(Term::Or(parts))
        }
        Term::If { test, yes, no } => {
            let test = walk_boxed(alloc, test, under, by)?;
            let yes = walk_boxed(alloc, yes, under, by)?;
            let no = walk_boxed(alloc, no, under, by)?;
            Ok(Term::If { test, yes, no })
        }
        Term::Same { left, right } => {
            let left = walk_boxed(alloc, left, under, by)?;
            let right = walk_boxed(alloc, right, under, by)?;
            Ok(Term::Same { left, right })
        }
        Term::Less { left, right } => {
            let left = walk_boxed(alloc, left, under, by)?;
            let right = walk_boxed(alloc, right, under, by)?;
            Ok(Term::Less { left, right })
        }
        Term::Arith { op, left, right } => {
            let left = walk_boxed(alloc, left, under, by)?;
            let right = walk_boxed(alloc, right, under, by)?;
            Ok(Term::Arith {
                op: *op,
                left,
                right,
            })
        }
        Term::Quantified { all, body } => {
            let deeper = moved(under, 1)?;
            let body = walk_boxed(alloc, body, deeper, by)?;
            Ok(Term::Quantified { all: *all, body })
        }
    }
}

#[cycle(walk)]
fn walk_boxed<R: Replacement>(
    alloc: Global,
    t: &Boxed<Term>,
    under: u32,
    by: &R,
) -> Result<Boxed<Term>, Memory>
    ensures { IfOk result (λ out. out ≡ replaced (R.rule by.now) under t.now) }
{
    let out = walk(alloc, t.get(), under, by)?;
    let out = boxed(alloc, out)?;
    Ok(out)
}

#[cycle(walk)]
fn walk_all<R: Replacement>(
    alloc: Global,
    all: &[Term],
    under: u32,
    by: &R,
) -> Result<Items<Term>, Memory>
    ensures { IfOk result (λ out. out ≡ map (replaced (R.rule by.now) under) all.now) }
{
    let mut out = Items::new(alloc);
    for one in all {
        let done = walk(alloc, one, under, by)?;
        out.push(done)?;
    }
    Ok(out)
}
