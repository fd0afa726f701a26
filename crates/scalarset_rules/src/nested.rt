//! The loops over nodes of a body, with no call opened, in the order of the text.

#![tactic(auto, using(crate::proofs::LoopEquations::loops))]

ghost use Rattle.std.specs.Prelude.{◌≡◌, ◌++◌, ◌∷◌, [], map, IfOk};
ghost use Rattle.scalarset_rules.specs.Accesses.{binding, next_binder, stands_of};
ghost use Rattle.scalarset_rules.specs.Seen.{seen_loop, scope_at};
ghost use Rattle.scalarset_rules.specs.Pieces.{Around, Within, if_around, loop_pieces, list_pieces, list_loops, list_arm_loops, list_case_loops};

use crate::piece::Piece;
use crate::place::{Level, given, inside};
use crate::shape::{Binder, Stand};
use crate::touch::touches_all;
use murphi_ast::text::Memory;
use murphi_ast::token::Span;
use murphi_typed::expr::Arguments;
use murphi_typed::stmt::{Arm, Case, Stmt};
use murphi_typed::types::Simple;
use sqlite_items::Items;
use std::alloc::Global;

/// A `for` over nodes, with its variable and the pieces of its body, or a call of a procedure.
#[derive(Drop)]
pub(crate) enum LoopPiece {
    Around {
        variable: Binder,
        pieces: Items<Piece>,
    },
    Within {
        routine: u32,
        stands: Items<Stand>,
        at: Span,
    },
}

fn with_more(first: Items<LoopPiece>, second: Items<LoopPiece>) -> Result<Items<LoopPiece>, Memory>
    ensures { IfOk result (λ v. map seen_loop v ≡ map seen_loop first ++ map seen_loop second) }
{
    let mut out = first;
    out.append(second)?;
    Ok(out)
}

fn called(
    alloc: Global,
    level: Level,
    stands: &[Stand],
    routine: u32,
    args: &Arguments,
    at: Span,
) -> Result<Items<LoopPiece>, Memory>
    ensures { IfOk result (λ v. map seen_loop v ≡ Within routine (stands_of (scope_at level.depth level.bound stands.now) args.now) at ∷ []) }
{
    let given = given(alloc, level, stands, args)?;
    let mut out = Items::new(alloc);
    out.push(LoopPiece::Within {
        routine,
        stands: given,
        at,
    })?;
    Ok(out)
}

/// The loop itself, where it is over nodes, before those that stand in it.
fn around(
    alloc: Global,
    level: Level,
    stands: &[Stand],
    over: Simple,
    body: &[Stmt],
    inner: Items<LoopPiece>,
) -> Result<Items<LoopPiece>, Memory>
    ensures { IfOk result (λ v. map seen_loop v ≡ if_around over (Around (next_binder (scope_at level.depth level.bound stands.now)) (list_pieces (binding (scope_at level.depth level.bound stands.now)) body.now)) (map seen_loop inner)) }
{
    if !over.is_over_nodes() {
        return Ok(inner);
    }
    let within = inside(level)?;
    let pieces = touches_all(alloc, within, stands, body)?;
    let variable = Binder {
        depth: level.depth,
        number: level.bound,
    };
    let mut first = Items::new(alloc);
    first.push(LoopPiece::Around { variable, pieces })?;
    let out = with_more(first, inner)?;
    Ok(out)
}

/// The loops over nodes of a statement, and the procedures that it calls.
#[cycle(loops)]
pub(crate) fn loops_of(
    alloc: Global,
    level: Level,
    stands: &[Stand],
    s: &Stmt,
) -> Result<Items<LoopPiece>, Memory>
    ensures { IfOk result (λ v. map seen_loop v ≡ loop_pieces (scope_at level.depth level.bound stands.now) s.now) }
{
    match s {
        Stmt::Block(body) => {
            let out = loops_of_all(alloc, level, stands, body.as_slice())?;
            Ok(out)
        }
        Stmt::Call { routine, args, at } => {
            let out = called(alloc, level, stands, *routine, args, *at)?;
            Ok(out)
        }
        Stmt::If {
            arms,
            otherwise,
            ..
        } => {
            let first = loops_of_arms(alloc, level, stands, arms.as_slice())?;
            let second = loops_of_all(alloc, level, stands, otherwise.as_slice())?;
            let out = with_more(first, second)?;
            Ok(out)
        }
        Stmt::Switch {
            cases,
            otherwise,
            ..
        } => {
            let first = loops_of_cases(alloc, level, stands, cases.as_slice())?;
            let second = loops_of_all(alloc, level, stands, otherwise.as_slice())?;
            let out = with_more(first, second)?;
            Ok(out)
        }
        Stmt::For { over, body, .. } => {
            let within = inside(level)?;
            let inner = loops_of_all(alloc, within, stands, body.as_slice())?;
            let out = around(alloc, level, stands, *over, body.as_slice(), inner)?;
            Ok(out)
        }
        Stmt::Assign { .. }
        | Stmt::Copy { .. }
        | Stmt::CopyAll { .. }
        | Stmt::Clear { .. }
        | Stmt::Undefine { .. }
        | Stmt::Error { .. }
        | Stmt::Assert { .. }
        | Stmt::PutText { .. }
        | Stmt::Put { .. }
        | Stmt::Leave { .. }
        | Stmt::Return { .. } => Ok(Items::new(alloc)),
    }
}

#[cycle(loops)]
fn loops_of_all(
    alloc: Global,
    level: Level,
    stands: &[Stand],
    body: &[Stmt],
) -> Result<Items<LoopPiece>, Memory>
    ensures { IfOk result (λ v. map seen_loop v ≡ list_loops (scope_at level.depth level.bound stands.now) body.now) }
{
    let mut out = Items::new(alloc);
    for s in body {
        let more = loops_of(alloc, level, stands, s)?;
        out = with_more(out, more)?;
    }
    Ok(out)
}

#[cycle(loops)]
fn loops_of_arms(
    alloc: Global,
    level: Level,
    stands: &[Stand],
    arms: &[Arm],
) -> Result<Items<LoopPiece>, Memory>
    ensures { IfOk result (λ v. map seen_loop v ≡ list_arm_loops (scope_at level.depth level.bound stands.now) arms.now) }
{
    let mut out = Items::new(alloc);
    for arm in arms {
        let more = loops_of_all(alloc, level, stands, arm.body.as_slice())?;
        out = with_more(out, more)?;
    }
    Ok(out)
}

#[cycle(loops)]
fn loops_of_cases(
    alloc: Global,
    level: Level,
    stands: &[Stand],
    cases: &[Case],
) -> Result<Items<LoopPiece>, Memory>
    ensures { IfOk result (λ v. map seen_loop v ≡ list_case_loops (scope_at level.depth level.bound stands.now) cases.now) }
{
    let mut out = Items::new(alloc);
    for case in cases {
        let more = loops_of_all(alloc, level, stands, case.body.as_slice())?;
        out = with_more(out, more)?;
    }
    Ok(out)
}
