//! What a statement reads, writes and calls, with no call opened, in the order of the text.

#![tactic(auto, using(crate::proofs::TouchEquations::touches))]

ghost use Rattle.std.specs.Prelude.{◌≡◌, ◌++◌, map, true, false, IfOk};
ghost use Rattle.std.specs.List.{flat_map};
ghost use Rattle.scalarset_rules.specs.Seen.{seen_piece, scope_at};
ghost use Rattle.scalarset_rules.specs.Pieces.{read_pieces, touch_place, pieces, list_pieces, list_arms, list_cases};

use crate::piece::{Piece, arguments, indices, joined, reads, touch, with_call};
use crate::place::{Level, inside};
use crate::shape::Stand;
use murphi_ast::text::Memory;
use murphi_typed::expr::{Designator, Expr};
use murphi_typed::stmt::{Arm, Case, Stmt};
use sqlite_items::Items;
use std::alloc::Global;

/// A designator that is read or written, with the reads in its indices.
fn touched(
    alloc: Global,
    level: Level,
    stands: &[Stand],
    write: bool,
    place: &Designator,
) -> Result<Items<Piece>, Memory>
    ensures { IfOk result (λ v. map seen_piece v ≡ touch_place write (scope_at level.depth level.bound stands.now) place.now) }
{
    let first = touch(alloc, level, stands, write, place)?;
    let second = indices(alloc, level, stands, place)?;
    let out = joined(first, second)?;
    Ok(out)
}

fn copied(
    alloc: Global,
    level: Level,
    stands: &[Stand],
    to: &Designator,
    from: &Designator,
) -> Result<Items<Piece>, Memory>
    ensures { IfOk result (λ v. map seen_piece v ≡ touch_place true (scope_at level.depth level.bound stands.now) to.now ++ touch_place false (scope_at level.depth level.bound stands.now) from.now) }
{
    let first = touched(alloc, level, stands, true, to)?;
    let second = touched(alloc, level, stands, false, from)?;
    let out = joined(first, second)?;
    Ok(out)
}

fn labels(
    alloc: Global,
    level: Level,
    stands: &[Stand],
    all: &[Expr],
) -> Result<Items<Piece>, Memory>
    ensures { IfOk result (λ v. map seen_piece v ≡ flat_map (read_pieces (scope_at level.depth level.bound stands.now)) all.now) }
{
    let mut out = Items::new(alloc);
    for label in all {
        let more = reads(alloc, level, stands, label)?;
        out = joined(out, more)?;
    }
    Ok(out)
}

/// What a statement reads, writes and calls.
#[cycle(touches)]
pub(crate) fn touches(
    alloc: Global,
    level: Level,
    stands: &[Stand],
    s: &Stmt,
) -> Result<Items<Piece>, Memory>
    ensures { IfOk result (λ v. map seen_piece v ≡ pieces (scope_at level.depth level.bound stands.now) s.now) }
{
    match s {
        Stmt::Block(body) => {
            let out = touches_all(alloc, level, stands, body.as_slice())?;
            Ok(out)
        }
        Stmt::Assign { to, value, .. } => {
            let first = touched(alloc, level, stands, true, to)?;
            let second = reads(alloc, level, stands, value)?;
            let out = joined(first, second)?;
            Ok(out)
        }
        Stmt::Copy { to, from, .. } | Stmt::CopyAll { to, from } => {
            let out = copied(alloc, level, stands, to, from)?;
            Ok(out)
        }
        Stmt::Call { routine, args, at } => {
            let front = arguments(alloc, level, stands, args)?;
            let out = with_call(alloc, level, stands, front, *routine, args, *at)?;
            Ok(out)
        }
        Stmt::If {
            arms,
            otherwise,
            ..
        } => {
            let first = touches_arms(alloc, level, stands, arms.as_slice())?;
            let second = touches_all(alloc, level, stands, otherwise.as_slice())?;
            let out = joined(first, second)?;
            Ok(out)
        }
        Stmt::Switch {
            on,
            cases,
            otherwise,
            ..
        } => {
            let first = reads(alloc, level, stands, on)?;
            let second = touches_cases(alloc, level, stands, cases.as_slice())?;
            let third = touches_all(alloc, level, stands, otherwise.as_slice())?;
            let rest = joined(second, third)?;
            let out = joined(first, rest)?;
            Ok(out)
        }
        Stmt::For { body, .. } => {
            let inner = inside(level)?;
            let out = touches_all(alloc, inner, stands, body.as_slice())?;
            Ok(out)
        }
        Stmt::Clear { place, .. } | Stmt::Undefine { place, .. } => {
            let out = touched(alloc, level, stands, true, place)?;
            Ok(out)
        }
        Stmt::Assert { test, .. } => {
            let out = reads(alloc, level, stands, test)?;
            Ok(out)
        }
        Stmt::Return { value, .. } => {
            let out = reads(alloc, level, stands, value)?;
            Ok(out)
        }
        Stmt::Error { .. } | Stmt::PutText { .. } | Stmt::Put { .. } | Stmt::Leave { .. } => {
            Ok(Items::new(alloc))
        }
    }
}

/// What statements read, write and call.
#[cycle(touches)]
pub(crate) fn touches_all(
    alloc: Global,
    level: Level,
    stands: &[Stand],
    body: &[Stmt],
) -> Result<Items<Piece>, Memory>
    ensures { IfOk result (λ v. map seen_piece v ≡ list_pieces (scope_at level.depth level.bound stands.now) body.now) }
{
    let mut out = Items::new(alloc);
    for s in body {
        let more = touches(alloc, level, stands, s)?;
        out = joined(out, more)?;
    }
    Ok(out)
}

#[cycle(touches)]
fn touches_arms(
    alloc: Global,
    level: Level,
    stands: &[Stand],
    arms: &[Arm],
) -> Result<Items<Piece>, Memory>
    ensures { IfOk result (λ v. map seen_piece v ≡ list_arms (scope_at level.depth level.bound stands.now) arms.now) }
{
    let mut out = Items::new(alloc);
    for arm in arms {
        let test = reads(alloc, level, stands, &arm.test)?;
        let body = touches_all(alloc, level, stands, arm.body.as_slice())?;
        let more = joined(test, body)?;
        out = joined(out, more)?;
    }
    Ok(out)
}

#[cycle(touches)]
fn touches_cases(
    alloc: Global,
    level: Level,
    stands: &[Stand],
    cases: &[Case],
) -> Result<Items<Piece>, Memory>
    ensures { IfOk result (λ v. map seen_piece v ≡ list_cases (scope_at level.depth level.bound stands.now) cases.now) }
{
    let mut out = Items::new(alloc);
    for case in cases {
        let names = labels(alloc, level, stands, case.labels.as_slice())?;
        let body = touches_all(alloc, level, stands, case.body.as_slice())?;
        let more = joined(names, body)?;
        out = joined(out, more)?;
    }
    Ok(out)
}
