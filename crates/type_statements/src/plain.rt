//! Statements that have no others in them: assignments, calls, and single words. And the labels of a case.
#![tactic(auto, using(crate::proofs::PlainEquations::plains))]

ghost use Rattle.std.specs.Prelude.{◌≡◌, List, ◌∷◌, IfOk, OnOk};
ghost use Rattle.murphi_ast.specs.declared.expr.Expr.{Expr as WrittenExpr};
ghost use Rattle.murphi_types.specs.Weights.{stopped};
ghost use Rattle.murphi_types.specs.Statements.{labels_found};
ghost use Rattle.type_parts.specs.Contexts.{moved};
ghost use Rattle.type_statements.specs.Stating.{leaving_of, misplaced_judged, labelled};
ghost use Rattle.type_statements.specs.StatementsGiven.{stmt_part, labels_part, assign_given, call_given, clear_given, undefine_given, assert_given, put_given, give_given, leave_given};

use crate::judged::{JudgedLabels, JudgedStmt, Leaving};
use crate::steps::{
    as_result, as_simple, asserted, called, cleared, copied, left, more_labels, one_statement,
    returned, shown, stored, undefined,
};
use murphi_ast::expr::{Designator, Expr, Named};
use murphi_ast::text::Memory;
use murphi_ast::token::Span;
use murphi_typed::stmt::Stmt as TypedStmt;
use murphi_typed::types::{AnyType, Simple};
use murphi_types::fault::{Cause, Fault};
use sqlite_items::Items;
use std::alloc::Global;
use type_expressions::judge::{arguments, designator, expr};
use type_forms::calls::callee;
use type_parts::context::Context;
use type_parts::expressions::{as_right, as_truth};
use type_parts::places::place_of;

/// `to := value`. A plain designator is copied; any other expression is stored.
pub fn assign(
    alloc: Global,
    context: &mut Context,
    to: &Designator,
    value: &Expr,
) -> Result<JudgedStmt, Memory>
    ensures part { IfOk result (λ r. r ≡ stmt_part (assign_given context.old.scope context.old.known to.now value.now)) }
    ensures context { OnOk result (context.new ≡ moved context.old (assign_given context.old.scope context.old.known to.now value.now).known) }
{
    let place = designator(alloc, context, to)?;
    match value {
        Expr::Place(from) => {
            let part = designator(alloc, context, from)?;
            Ok(copied(context.scope.in_function, place, part))
        }
        _ => {
            let part = expr(alloc, context, value)?;
            Ok(stored(context.scope.in_function, place_of(value), place, part))
        }
    }
}

/// A call of a procedure.
pub fn call(
    alloc: Global,
    context: &mut Context,
    name: &Named,
    args: &[Expr],
) -> Result<JudgedStmt, Memory>
    ensures part { IfOk result (λ r. r ≡ stmt_part (call_given context.old.scope context.old.known name.now args.now)) }
    ensures context { OnOk result (context.new ≡ moved context.old (call_given context.old.scope context.old.known name.now args.now).known) }
{
    let what = context.look(&name.name)?;
    let routine = callee(context, name, what)?;
    let given = arguments(alloc, context, args, name.at, &routine.routine)?;
    Ok(called(context.scope.in_function, name.at, routine, given))
}

/// `clear`.
pub fn clear(
    alloc: Global,
    context: &mut Context,
    place: &Designator,
    at: Span,
) -> Result<JudgedStmt, Memory>
    ensures part { IfOk result (λ r. r ≡ stmt_part (clear_given context.old.scope context.old.known place.now at)) }
    ensures context { OnOk result (context.new ≡ moved context.old (clear_given context.old.scope context.old.known place.now at).known) }
{
    let part = designator(alloc, context, place)?;
    Ok(cleared(context.scope.in_function, at, part))
}

/// `undefine`.
pub fn undefine(
    alloc: Global,
    context: &mut Context,
    place: &Designator,
    at: Span,
) -> Result<JudgedStmt, Memory>
    ensures part { IfOk result (λ r. r ≡ stmt_part (undefine_given context.old.scope context.old.known place.now at)) }
    ensures context { OnOk result (context.new ≡ moved context.old (undefine_given context.old.scope context.old.known place.now at).known) }
{
    let part = designator(alloc, context, place)?;
    Ok(undefined(context.scope.in_function, at, part))
}

/// `assert`.
pub fn assert_that(
    alloc: Global,
    context: &mut Context,
    test: &Expr,
    at: Span,
) -> Result<JudgedStmt, Memory>
    ensures part { IfOk result (λ r. r ≡ stmt_part (assert_given context.old.scope context.old.known test.now at)) }
    ensures context { OnOk result (context.new ≡ moved context.old (assert_given context.old.scope context.old.known test.now at).known) }
{
    let part = expr(alloc, context, test)?;
    let part = as_truth(part, place_of(test));
    Ok(asserted(at, part))
}

/// `put`, of a string or of a value.
pub fn put(
    alloc: Global,
    context: &mut Context,
    value: &Option<Expr>,
    at: Span,
) -> Result<JudgedStmt, Memory>
    ensures part { IfOk result (λ r. r ≡ stmt_part (put_given context.old.scope context.old.known value.now at)) }
    ensures context { OnOk result (context.new ≡ moved context.old (put_given context.old.scope context.old.known value.now at).known) }
{
    match value {
        None => Ok(one_statement(TypedStmt::PutText { at }, 0, None)),
        Some(value) => {
            let part = expr(alloc, context, value)?;
            let part = as_simple(part, place_of(value));
            Ok(shown(at, part))
        }
    }
}

/// `return` with a value, in a function of such a result.
fn give(
    alloc: Global,
    context: &mut Context,
    of: Option<Simple>,
    value: &Expr,
    at: Span,
) -> Result<JudgedStmt, Memory>
    ensures part { IfOk result (λ r. r ≡ stmt_part (give_given context.old.scope context.old.known of value.now at)) }
    ensures context { OnOk result (context.new ≡ moved context.old (give_given context.old.scope context.old.known of value.now at).known) }
{
    let part = expr(alloc, context, value)?;
    let part = as_result(part, of, place_of(value));
    Ok(returned(at, part))
}

fn misplaced(at: Span) -> JudgedStmt
    ensures { result ≡ misplaced_judged at }
{
    left(
        at,
        Some(Fault {
            cause: Cause::E11,
            at,
        }),
    )
}

/// `return`, in a body that may be left so.
pub fn leave(
    alloc: Global,
    context: &mut Context,
    leaving: Leaving,
    value: &Option<Expr>,
    at: Span,
) -> Result<JudgedStmt, Memory>
    ensures part { IfOk result (λ r. r ≡ stmt_part (leave_given (leaving_of leaving) context.old.scope context.old.known value.now at)) }
    ensures context { OnOk result (context.new ≡ moved context.old (leave_given (leaving_of leaving) context.old.scope context.old.known value.now at).known) }
{
    match value {
        None => match leaving {
            Leaving::AtEnd => Ok(misplaced(at)),
            Leaving::ByReturn => Ok(left(at, None)),
            Leaving::WithValue(_) => Ok(misplaced(at)),
        },
        Some(value) => match leaving {
            Leaving::AtEnd => Ok(misplaced(at)),
            Leaving::ByReturn => Ok(misplaced(at)),
            Leaving::WithValue(of) => {
                let made = give(alloc, context, of, value, at)?;
                Ok(made)
            }
        },
    }
}

/// The labels of a case, each compared with what is switched on.
pub fn labels(
    alloc: Global,
    context: &mut Context,
    on: &Option<AnyType>,
    all: &[Expr],
) -> Result<JudgedLabels, Memory>
    ensures part { IfOk result (λ r. r ≡ labels_part (labels_found context.old.scope context.old.known on.now all.now)) }
    ensures context { OnOk result (context.new ≡ moved context.old (labels_found context.old.scope context.old.known on.now all.now).known) }
{
    let mut done = JudgedLabels {
        trees: Items::new(alloc),
        weight: 0,
        fault: None,
    };
    for one in all {
        label(alloc, context, on, one, &mut done)?;
    }
    Ok(done)
}

/// One label more.
fn label(
    alloc: Global,
    context: &mut Context,
    on: &Option<AnyType>,
    one: &Expr,
    done: &mut JudgedLabels,
) -> Result<(), Memory>
    ensures scope { OnOk result (context.new.scope ≡ context.old.scope) }
    ensures stops { OnOk result (stopped done.old.weight ≡ done.old.weight → stopped done.new.weight ≡ done.new.weight) }
    ensures rest { OnOk result ((rest : List WrittenExpr) → labelled done.new (labels_found context.new.scope context.new.known on.now rest) ≡ labelled done.old (labels_found context.old.scope context.old.known on.now (one.now ∷ rest))) }
{
    let part = expr(alloc, context, one)?;
    let part = as_right(part, true, on, place_of(one));
    more_labels(done, part)?;
    Ok(())
}
