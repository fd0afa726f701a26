//! Typing of statements. What an enum declares for the whole text is handed on from part to part, in text order.
#![tactic(auto, using(crate::proofs::ArmEquations::arms))]

ghost use Rattle.std.specs.Prelude.{◌≡◌, List, ◌∷◌, Option, IfOk, OnOk};
ghost use Rattle.murphi_ast.specs.declared.stmt.Stmt.{Stmt as WrittenStmt};
ghost use Rattle.murphi_ast.specs.declared.stmt.Arm.{Arm as WrittenArm};
ghost use Rattle.murphi_ast.specs.declared.stmt.Case.{Case as WrittenCase};
ghost use Rattle.murphi_types.specs.Weights.{stopped};
ghost use Rattle.murphi_types.specs.Scopes.{binding};
ghost use Rattle.murphi_types.specs.Statements.{stmt_found, body_found};
ghost use Rattle.type_parts.specs.Contexts.{moved};
ghost use Rattle.type_statements.specs.Stating.{leaving_of, stated, armed, cased};
ghost use Rattle.type_statements.specs.StatementsGiven.{stmts_part, arms_part, cases_part, stmt_part};
ghost use Rattle.type_statements.specs.StatementLists.{list_arms, list_cases};

use crate::judged::{JudgedArms, JudgedCases, JudgedStmt, JudgedStmts, Leaving};
use crate::plain::{assert_that, assign, call, clear, labels, leave, put, undefine};
use crate::steps::{
    as_simple, for_made, if_made, more_arms, more_cases, more_statements, one_statement,
    switch_made,
};
use murphi_ast::stmt::{Arm, Case, Stmt};
use murphi_ast::text::{Memory, Text};
use murphi_typed::stmt::Stmt as TypedStmt;
use murphi_typed::types::{AnyType, Simple};
use sqlite_items::Items;
use std::alloc::Global;
use type_expressions::judge::{expr, type_expr};
use type_forms::written::simple_wanted;
use type_parts::context::Context;
use type_parts::expressions::as_truth;
use type_parts::fitting::simple_part;
use type_parts::places::{place_of, type_place_of};

/// A typed statement, in a body that may be left so.
#[cycle(judge)]
fn statement(
    alloc: Global,
    context: &mut Context,
    leaving: Leaving,
    one: &Stmt,
) -> Result<JudgedStmt, Memory>
    ensures part { IfOk result (λ r. r ≡ stmt_part (stmt_found (leaving_of leaving) context.old.scope context.old.known one.now)) }
    ensures context { OnOk result (context.new ≡ moved context.old (stmt_found (leaving_of leaving) context.old.scope context.old.known one.now).known) }
{
    match one {
        Stmt::Assign { to, value } => {
            let made = assign(alloc, context, to, value)?;
            Ok(made)
        }
        Stmt::Call { name, args } => {
            let made = call(alloc, context, name, args.as_slice())?;
            Ok(made)
        }
        Stmt::If {
            arms: all,
            otherwise,
            at,
        } => {
            let done = arms(alloc, context, leaving, all.as_slice())?;
            let rest = statements(alloc, context, leaving, otherwise.as_slice())?;
            Ok(if_made(*at, done, rest))
        }
        Stmt::Switch {
            on,
            cases: all,
            otherwise,
            at,
        } => {
            let part = expr(alloc, context, on)?;
            let part = as_simple(part, place_of(on));
            let done = cases(alloc, context, leaving, all.as_slice(), &part.of)?;
            let rest = statements(alloc, context, leaving, otherwise.as_slice())?;
            Ok(switch_made(*at, part, done, rest))
        }
        Stmt::For { bind, body, at } => {
            let over = type_expr(alloc, context, &bind.over)?;
            let over = simple_wanted(over, type_place_of(&bind.over));
            let part = bound_statements(
                alloc,
                context,
                leaving,
                body.as_slice(),
                &bind.name.name,
                simple_part(&over.of),
            )?;
            Ok(for_made(*at, over, part))
        }
        Stmt::Clear { place, at } => {
            let made = clear(alloc, context, place, *at)?;
            Ok(made)
        }
        Stmt::Undefine { place, at } => {
            let made = undefine(alloc, context, place, *at)?;
            Ok(made)
        }
        Stmt::Error { at } => Ok(one_statement(TypedStmt::Error { at: *at }, 0, None)),
        Stmt::Assert { test, at } => {
            let made = assert_that(alloc, context, test, *at)?;
            Ok(made)
        }
        Stmt::Put { value, at } => {
            let made = put(alloc, context, value, *at)?;
            Ok(made)
        }
        Stmt::Return { value, at } => {
            let made = leave(alloc, context, leaving, value, *at)?;
            Ok(made)
        }
    }
}

/// The body of a `for`, whose variable is in scope in it alone.
#[cycle(judge)]
fn bound_statements(
    alloc: Global,
    context: &mut Context,
    leaving: Leaving,
    body: &[Stmt],
    name: &Text,
    over: Option<Simple>,
) -> Result<JudgedStmts, Memory>
    ensures part { IfOk result (λ r. r ≡ stmts_part (body_found (leaving_of leaving) (binding context.old.scope name.now over) context.old.known body.now)) }
    ensures context { OnOk result (context.new ≡ moved context.old (body_found (leaving_of leaving) (binding context.old.scope name.now over) context.old.known body.now).known) }
{
    let bound = context.scope.bound;
    context.enter(alloc, name, over)?;
    let part = statements(alloc, context, leaving, body)?;
    context.leave(bound);
    Ok(part)
}

/// The typed statements of a body that may be left so.
#[cycle(judge)]
pub fn statements(
    alloc: Global,
    context: &mut Context,
    leaving: Leaving,
    all: &[Stmt],
) -> Result<JudgedStmts, Memory>
    ensures part { IfOk result (λ r. r ≡ stmts_part (body_found (leaving_of leaving) context.old.scope context.old.known all.now)) }
    ensures context { OnOk result (context.new ≡ moved context.old (body_found (leaving_of leaving) context.old.scope context.old.known all.now).known) }
{
    let mut done = JudgedStmts {
        trees: Items::new(alloc),
        weight: 0,
        fault: None,
    };
    for one in all {
        next_statement(alloc, context, leaving, one, &mut done)?;
    }
    Ok(done)
}

/// One statement more.
#[cycle(judge)]
fn next_statement(
    alloc: Global,
    context: &mut Context,
    leaving: Leaving,
    one: &Stmt,
    done: &mut JudgedStmts,
) -> Result<(), Memory>
    ensures scope { OnOk result (context.new.scope ≡ context.old.scope) }
    ensures stops { OnOk result (stopped done.old.weight ≡ done.old.weight → stopped done.new.weight ≡ done.new.weight) }
    ensures rest { OnOk result ((rest : List WrittenStmt) → stated done.new (body_found (leaving_of leaving) context.new.scope context.new.known rest) ≡ stated done.old (body_found (leaving_of leaving) context.old.scope context.old.known (one.now ∷ rest))) }
{
    let part = statement(alloc, context, leaving, one)?;
    more_statements(done, part)?;
    Ok(())
}

/// The tests of an `if`, each with the statements that it guards.
#[cycle(judge)]
fn arms(
    alloc: Global,
    context: &mut Context,
    leaving: Leaving,
    all: &[Arm],
) -> Result<JudgedArms, Memory>
    ensures part { IfOk result (λ r. r ≡ arms_part (list_arms (leaving_of leaving) context.old.scope context.old.known all.now)) }
    ensures context { OnOk result (context.new ≡ moved context.old (list_arms (leaving_of leaving) context.old.scope context.old.known all.now).known) }
{
    let mut done = JudgedArms {
        trees: Items::new(alloc),
        weight: 0,
        fault: None,
    };
    for one in all {
        arm(alloc, context, leaving, one, &mut done)?;
    }
    Ok(done)
}

/// One test more.
#[cycle(judge)]
fn arm(
    alloc: Global,
    context: &mut Context,
    leaving: Leaving,
    one: &Arm,
    done: &mut JudgedArms,
) -> Result<(), Memory>
    ensures scope { OnOk result (context.new.scope ≡ context.old.scope) }
    ensures stops { OnOk result (stopped done.old.weight ≡ done.old.weight → stopped done.new.weight ≡ done.new.weight) }
    ensures rest { OnOk result ((rest : List WrittenArm) → armed done.new (list_arms (leaving_of leaving) context.new.scope context.new.known rest) ≡ armed done.old (list_arms (leaving_of leaving) context.old.scope context.old.known (one.now ∷ rest))) }
{
    let test = expr(alloc, context, &one.test)?;
    let test = as_truth(test, place_of(&one.test));
    let body = statements(alloc, context, leaving, one.body.as_slice())?;
    more_arms(done, test, body)?;
    Ok(())
}

/// The cases of a `switch` on a part of some type.
#[cycle(judge)]
fn cases(
    alloc: Global,
    context: &mut Context,
    leaving: Leaving,
    all: &[Case],
    on: &Option<AnyType>,
) -> Result<JudgedCases, Memory>
    ensures part { IfOk result (λ r. r ≡ cases_part (list_cases (leaving_of leaving) context.old.scope context.old.known on.now all.now)) }
    ensures context { OnOk result (context.new ≡ moved context.old (list_cases (leaving_of leaving) context.old.scope context.old.known on.now all.now).known) }
{
    let mut done = JudgedCases {
        trees: Items::new(alloc),
        weight: 0,
        fault: None,
    };
    for one in all {
        case(alloc, context, leaving, one, on, &mut done)?;
    }
    Ok(done)
}

/// One case more.
#[cycle(judge)]
fn case(
    alloc: Global,
    context: &mut Context,
    leaving: Leaving,
    one: &Case,
    on: &Option<AnyType>,
    done: &mut JudgedCases,
) -> Result<(), Memory>
    ensures scope { OnOk result (context.new.scope ≡ context.old.scope) }
    ensures stops { OnOk result (stopped done.old.weight ≡ done.old.weight → stopped done.new.weight ≡ done.new.weight) }
    ensures rest { OnOk result ((rest : List WrittenCase) → cased done.new (list_cases (leaving_of leaving) context.new.scope context.new.known on.now rest) ≡ cased done.old (list_cases (leaving_of leaving) context.old.scope context.old.known on.now (one.now ∷ rest))) }
{
    let named = labels(alloc, context, on, one.labels.as_slice())?;
    let body = statements(alloc, context, leaving, one.body.as_slice())?;
    more_cases(done, named, body)?;
    Ok(())
}
