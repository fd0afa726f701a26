//! The walk over statements.
#![tactic(auto, using(crate::proofs::StmtEquations::statements))]

ghost use Rattle.std.specs.Prelude.{◌≡◌, IfOk};
ghost use Rattle.type_prefixes.specs.Walks.{stmt_walked};
ghost use Rattle.type_prefixes.specs.WalkLists.{list_stmts, list_arms, list_cases};

use crate::depth::{Depth, added, formals_of, own_of, touch};
use crate::expressions::{walk, walk_args, walk_labels, walk_place};
use murphi_ast::text::Memory;
use murphi_typed::stmt::{Arm, Case, Stmt};

/// A statement that stands inside so many levels.
#[cycle(walk)]
pub fn walk_stmt(
    one: &Stmt,
    routines: &[Depth],
    inside: u32,
    so_far: Depth,
) -> Result<Depth, Memory>
    ensures { IfOk result (λ d. d ≡ stmt_walked routines.now one.now inside so_far) }
{
    match one {
        Stmt::Block(body) => {
            let depth = walk_stmts(body.as_slice(), routines, inside, so_far)?;
            Ok(depth)
        }
        Stmt::Assign { to, value, .. } => {
            let depth = walk_place(to, routines, inside, so_far)?;
            let depth = walk(value, routines, inside, depth)?;
            Ok(depth)
        }
        Stmt::Copy { to, from, .. } => {
            let depth = walk_place(to, routines, inside, so_far)?;
            let depth = walk_place(from, routines, inside, depth)?;
            Ok(depth)
        }
        Stmt::CopyAll { to, from } => {
            let depth = walk_place(to, routines, inside, so_far)?;
            let depth = walk_place(from, routines, inside, depth)?;
            Ok(depth)
        }
        Stmt::Call { routine, args, .. } => {
            let own = added(inside, own_of(routines, *routine))?;
            let places = formals_of(routines, *routine);
            let depth = walk_args(args, routines, places, inside, touch(so_far, own))?;
            Ok(depth)
        }
        Stmt::If {
            arms,
            otherwise,
            ..
        } => {
            let depth = walk_arms(arms.as_slice(), routines, inside, so_far)?;
            let depth = walk_stmts(otherwise.as_slice(), routines, inside, depth)?;
            Ok(depth)
        }
        Stmt::Switch {
            on,
            cases,
            otherwise,
            ..
        } => {
            let depth = walk(on, routines, inside, so_far)?;
            let depth = walk_cases(cases.as_slice(), routines, inside, depth)?;
            let depth = walk_stmts(otherwise.as_slice(), routines, inside, depth)?;
            Ok(depth)
        }
        Stmt::For { over, body, .. } => {
            let inner = over.level(inside)?;
            let depth = walk_stmts(body.as_slice(), routines, inner, so_far)?;
            Ok(depth)
        }
        Stmt::Clear { place, .. } => {
            let depth = walk_place(place, routines, inside, so_far)?;
            Ok(depth)
        }
        Stmt::Undefine { place, .. } => {
            let depth = walk_place(place, routines, inside, so_far)?;
            Ok(depth)
        }
        Stmt::Error { .. } => Ok(touch(so_far, inside)),
        Stmt::Assert { test, .. } => {
            let depth = walk(test, routines, inside, so_far)?;
            Ok(depth)
        }
        Stmt::PutText { .. } => Ok(touch(so_far, inside)),
        Stmt::Put { value, .. } => {
            let depth = walk(value, routines, inside, so_far)?;
            Ok(depth)
        }
        Stmt::Leave { .. } => Ok(touch(so_far, inside)),
        Stmt::Return { value, .. } => {
            let depth = walk(value, routines, inside, so_far)?;
            Ok(depth)
        }
    }
}

#[cycle(walk)]
fn walk_stmts(all: &[Stmt], routines: &[Depth], inside: u32, so_far: Depth) -> Result<Depth, Memory>
    ensures { IfOk result (λ d. d ≡ list_stmts routines.now all.now inside so_far) }
{
    let mut depth = so_far;
    for one in all {
        depth = walk_stmt(one, routines, inside, depth)?;
    }
    Ok(touch(depth, inside))
}

#[cycle(walk)]
fn walk_arms(all: &[Arm], routines: &[Depth], inside: u32, so_far: Depth) -> Result<Depth, Memory>
    ensures { IfOk result (λ d. d ≡ list_arms routines.now all.now inside so_far) }
{
    let mut depth = so_far;
    for one in all {
        depth = walk(&one.test, routines, inside, depth)?;
        depth = walk_stmts(one.body.as_slice(), routines, inside, depth)?;
    }
    Ok(touch(depth, inside))
}

#[cycle(walk)]
fn walk_cases(all: &[Case], routines: &[Depth], inside: u32, so_far: Depth) -> Result<Depth, Memory>
    ensures { IfOk result (λ d. d ≡ list_cases routines.now all.now inside so_far) }
{
    let mut depth = so_far;
    for one in all {
        depth = walk_labels(one.labels.as_slice(), routines, inside, depth)?;
        depth = walk_stmts(one.body.as_slice(), routines, inside, depth)?;
    }
    Ok(touch(depth, inside))
}
