//! What operators make of their parts.

ghost use Rattle.std.specs.Prelude.{◌≡◌, ◌&&◌, true, is_some, IfOk};
ghost use Rattle.murphi_types.specs.Fitting.{fits, is_truth, is_number, is_equality, has_values_of, left_fits, right_fits};
ghost use Rattle.type_parts.specs.Judging.{kept, all_judged, not_judged, minus_judged, implies_judged, compared_judged, chosen_judged, chain_judged};
ghost use Rattle.murphi_typed.specs.WellTyped.{only_if};

use crate::faults::{sooner, unless};
use crate::fitting::{
    fits_left, fits_number, fits_right, fits_truth, fits_values_of, is_equality, numbers,
};
use crate::judged::{Judged, JudgedLinks};
use crate::weights::{one_more, plus};
use murphi_ast::expr::CompareOp;
use murphi_ast::text::Memory;
use murphi_ast::token::Span;
use murphi_typed::expr::Expr;
use murphi_typed::types::{AnyType, Simple};
use murphi_types::fault::{Cause, Fault};
use sqlite_items::Boxed;
use std::alloc::Global;

fn boxed(alloc: Global, e: Expr) -> Result<Boxed<Expr>, Memory>
    ensures { IfOk result (λ b. b ≡ e) }
{
    let b = Boxed::new(alloc, e)?;
    Ok(b)
}

/// A part that has to pass a test: where it does not, it is ill-typed, with a fault at its first token.
pub fn kept(part: Judged, fits: bool, at: Span) -> Judged
    ensures { result ≡ kept fits at part }
{
    let fault = sooner(part.fault, unless(fits, Cause::E07, at));
    if fits {
        Judged {
            of: part.of,
            tree: part.tree,
            weight: part.weight,
            fault,
        }
    } else {
        Judged {
            of: None,
            tree: part.tree,
            weight: part.weight,
            fault,
        }
    }
}

/// A part that has to be a truth value.
pub fn as_truth(part: Judged, at: Span) -> Judged
    ensures { result ≡ kept (fits is_truth part.of) at part }
{
    let fits = fits_truth(&part.of);
    kept(part, fits, at)
}

/// A part that has to be a number.
pub fn as_number(part: Judged, at: Span) -> Judged
    ensures { result ≡ kept (fits is_number part.of) at part }
{
    let fits = fits_number(&part.of);
    kept(part, fits, at)
}

/// A part that has to have values of a simple type.
pub fn as_operand(part: Judged, of: Simple, at: Span) -> Judged
    ensures { result ≡ kept (fits (has_values_of of) part.of) at part }
{
    let fits = fits_values_of(of, &part.of);
    kept(part, fits, at)
}

/// The left side of a comparison.
pub fn as_left(part: Judged, equality: bool, at: Span) -> Judged
    ensures { result ≡ kept (fits (left_fits equality) part.of) at part }
{
    let fits = fits_left(equality, &part.of);
    kept(part, fits, at)
}

/// The right side of a comparison, beside a left side of this type.
pub fn as_right(part: Judged, equality: bool, left: &Option<AnyType>, at: Span) -> Judged
    ensures { result ≡ kept (fits (right_fits equality left.now) part.of) at part }
{
    let fits = fits_right(equality, left, &part.of);
    kept(part, fits, at)
}

/// A whole of this type, where all its parts are well typed.
pub fn whole(typed: bool, of: Simple, tree: Expr, weight: u64, fault: Option<Fault>) -> Judged
    ensures { result ≡ all_judged typed of tree weight fault }
{
    if typed {
        Judged {
            of: Some(AnyType::Simple(of)),
            tree,
            weight,
            fault,
        }
    } else {
        Judged {
            of: None,
            tree,
            weight,
            fault,
        }
    }
}

/// `! body`.
pub fn not_made(alloc: Global, part: Judged, at: Span) -> Result<Judged, Memory>
    ensures { IfOk result (λ r. r ≡ not_judged (kept (fits is_truth part.of) at part)) }
{
    let part = as_truth(part, at);
    let typed = part.of.is_some();
    let tree = boxed(alloc, part.tree)?;
    Ok(whole(
        typed,
        Simple::Truth,
        Expr::Not(tree),
        one_more(part.weight),
        part.fault,
    ))
}

/// `- body`.
pub fn minus_made(alloc: Global, part: Judged, at: Span) -> Result<Judged, Memory>
    ensures { IfOk result (λ r. r ≡ minus_judged (kept (fits is_number part.of) at part)) }
{
    let part = as_number(part, at);
    let typed = part.of.is_some();
    let tree = boxed(alloc, part.tree)?;
    Ok(whole(
        typed,
        numbers(),
        Expr::Minus(tree),
        one_more(part.weight),
        part.fault,
    ))
}

/// Whether both parts are well typed.
fn both_typed(a: &Judged, b: &Judged) -> bool
    ensures { result ≡ (is_some a.now.of && is_some b.now.of) }
{
    if a.of.is_some() {
        b.of.is_some()
    } else {
        false
    }
}

/// `left -> right`.
pub fn implies_made(
    alloc: Global,
    a: Judged,
    left: Span,
    b: Judged,
    right: Span,
) -> Result<Judged, Memory>
    ensures { IfOk result (λ r. r ≡ implies_judged (kept (fits is_truth a.of) left a) (kept (fits is_truth b.of) right b)) }
{
    let a = as_truth(a, left);
    let b = as_truth(b, right);
    let typed = both_typed(&a, &b);
    let weight = one_more(plus(a.weight, b.weight));
    let fault = sooner(a.fault, b.fault);
    let left = boxed(alloc, a.tree)?;
    let right = boxed(alloc, b.tree)?;
    Ok(whole(
        typed,
        Simple::Truth,
        Expr::Implies { left, right },
        weight,
        fault,
    ))
}

/// `left = right` and the other comparisons.
pub fn compare_made(
    alloc: Global,
    op: CompareOp,
    a: Judged,
    left: Span,
    b: Judged,
    right: Span,
) -> Result<Judged, Memory>
    ensures { IfOk result (λ r. r ≡ compared_judged op left right a b) }
{
    let equality = is_equality(op);
    let a = as_left(a, equality, left);
    let b = as_right(b, equality, &a.of, right);
    let typed = both_typed(&a, &b);
    let weight = one_more(plus(a.weight, b.weight));
    let fault = sooner(a.fault, b.fault);
    let left = boxed(alloc, a.tree)?;
    let right = boxed(alloc, b.tree)?;
    Ok(whole(
        typed,
        Simple::Truth,
        Expr::Compare { op, left, right },
        weight,
        fault,
    ))
}

/// The type of a choice: that of its second part, where all three are well typed.
fn choice_type(test: bool, first: Option<AnyType>, second: bool) -> Option<AnyType>
    ensures { result ≡ only_if test (only_if second first) }
{
    if !test {
        return None;
    }
    if second { first } else { None }
}

/// `test ? first : second`, with the places of its parts.
pub fn choice_made(
    alloc: Global,
    test: (Judged, Span),
    first: (Judged, Span),
    second: (Judged, Span),
) -> Result<Judged, Memory>
    ensures { IfOk result (λ r. r ≡ chosen_judged test first second) }
{
    let test = as_truth(test.0, test.1);
    let a = as_left(first.0, true, first.1);
    let b = as_right(second.0, true, &a.of, second.1);
    let weight = one_more(plus(test.weight, plus(a.weight, b.weight)));
    let fault = sooner(test.fault, sooner(a.fault, b.fault));
    let of = choice_type(test.of.is_some(), a.of, b.of.is_some());
    let test = boxed(alloc, test.tree)?;
    let yes = boxed(alloc, a.tree)?;
    let no = boxed(alloc, b.tree)?;
    Ok(Judged {
        of,
        tree: Expr::Choice { test, yes, no },
        weight,
        fault,
    })
}

/// Operands of one level, from left to right.
pub fn chain_made(
    alloc: Global,
    of: Simple,
    a: Judged,
    at: Span,
    b: JudgedLinks,
) -> Result<Judged, Memory>
    ensures { IfOk result (λ r. r ≡ chain_judged of (kept (fits (has_values_of of) a.of) at a) b) }
{
    let a = as_operand(a, of, at);
    let typed = if a.of.is_some() { b.typed } else { false };
    let weight = one_more(plus(a.weight, b.weight));
    let fault = sooner(a.fault, b.fault);
    let first = boxed(alloc, a.tree)?;
    Ok(whole(
        typed,
        of,
        Expr::Chain {
            first,
            rest: b.trees,
        },
        weight,
        fault,
    ))
}
