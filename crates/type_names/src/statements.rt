//! The walk over statements.
#![tactic(auto, using(crate::proofs::BodyEquations::bodies))]

ghost use Rattle.std.specs.Prelude.{◌≡◌, IfOk};
ghost use Rattle.type_names.specs.Bodies.{of_stmt, of_option, list_stmts, list_arms, list_cases};

use crate::expressions::{walk, walk_exprs, walk_place, walk_type};
use crate::gathered::{Gathered, hidden_by};
use murphi_ast::expr::Expr;
use murphi_ast::stmt::{Arm, Case, Stmt};
use murphi_ast::text::{Memory, Text};
use std::alloc::Global;

/// An expression, where there is one.
pub(crate) fn walk_option(
    e: &Option<Expr>,
    alloc: Global,
    name: &Text,
    hidden: bool,
    so_far: Gathered,
) -> Result<Gathered, Memory>
    ensures { IfOk result (λ g. g ≡ of_option name.now hidden e.now so_far) }
{
    match e {
        None => Ok(so_far),
        Some(e) => {
            let g = walk(e, alloc, name, hidden, so_far)?;
            Ok(g)
        }
    }
}

/// A statement, where a name is sought in it that something inner may hide.
#[cycle(walk)]
pub fn walk_stmt(
    one: &Stmt,
    alloc: Global,
    name: &Text,
    hidden: bool,
    so_far: Gathered,
) -> Result<Gathered, Memory>
    ensures { IfOk result (λ g. g ≡ of_stmt name.now hidden one.now so_far) }
{
    match one {
        Stmt::Assign { to, value } => {
            let g = walk_place(to, alloc, name, hidden, so_far)?;
            let g = walk(value, alloc, name, hidden, g)?;
            Ok(g)
        }
        Stmt::Call { args, .. } => {
            let g = walk_exprs(args.as_slice(), alloc, name, hidden, so_far)?;
            Ok(g)
        }
        Stmt::If {
            arms,
            otherwise,
            ..
        } => {
            let g = walk_arms(arms.as_slice(), alloc, name, hidden, so_far)?;
            let g = walk_stmts(otherwise.as_slice(), alloc, name, hidden, g)?;
            Ok(g)
        }
        Stmt::Switch {
            on,
            cases,
            otherwise,
            ..
        } => {
            let g = walk(on, alloc, name, hidden, so_far)?;
            let g = walk_cases(cases.as_slice(), alloc, name, hidden, g)?;
            let g = walk_stmts(otherwise.as_slice(), alloc, name, hidden, g)?;
            Ok(g)
        }
        Stmt::For { bind, body, .. } => {
            let g = walk_type(&bind.over, alloc, name, hidden, so_far)?;
            let inside = hidden_by(hidden, name, &bind.name);
            let g = walk_stmts(body.as_slice(), alloc, name, inside, g)?;
            Ok(g)
        }
        Stmt::Clear { place, .. } => {
            let g = walk_place(place, alloc, name, hidden, so_far)?;
            Ok(g)
        }
        Stmt::Undefine { place, .. } => {
            let g = walk_place(place, alloc, name, hidden, so_far)?;
            Ok(g)
        }
        Stmt::Error { .. } => Ok(so_far),
        Stmt::Assert { test, .. } => {
            let g = walk(test, alloc, name, hidden, so_far)?;
            Ok(g)
        }
        Stmt::Put { value, .. } => {
            let g = walk_option(value, alloc, name, hidden, so_far)?;
            Ok(g)
        }
        Stmt::Return { value, .. } => {
            let g = walk_option(value, alloc, name, hidden, so_far)?;
            Ok(g)
        }
    }
}

/// Statements in turn.
#[cycle(walk)]
pub fn walk_stmts(
    all: &[Stmt],
    alloc: Global,
    name: &Text,
    hidden: bool,
    so_far: Gathered,
) -> Result<Gathered, Memory>
    ensures { IfOk result (λ g. g ≡ list_stmts name.now hidden all.now so_far) }
{
    let mut g = so_far;
    for one in all {
        g = walk_stmt(one, alloc, name, hidden, g)?;
    }
    Ok(g)
}

#[cycle(walk)]
fn walk_arms(
    all: &[Arm],
    alloc: Global,
    name: &Text,
    hidden: bool,
    so_far: Gathered,
) -> Result<Gathered, Memory>
    ensures { IfOk result (λ g. g ≡ list_arms name.now hidden all.now so_far) }
{
    let mut g = so_far;
    for one in all {
        g = walk(&one.test, alloc, name, hidden, g)?;
        g = walk_stmts(one.body.as_slice(), alloc, name, hidden, g)?;
    }
    Ok(g)
}

#[cycle(walk)]
fn walk_cases(
    all: &[Case],
    alloc: Global,
    name: &Text,
    hidden: bool,
    so_far: Gathered,
) -> Result<Gathered, Memory>
    ensures { IfOk result (λ g. g ≡ list_cases name.now hidden all.now so_far) }
{
    let mut g = so_far;
    for one in all {
        g = walk_exprs(one.labels.as_slice(), alloc, name, hidden, g)?;
        g = walk_stmts(one.body.as_slice(), alloc, name, hidden, g)?;
    }
    Ok(g)
}
