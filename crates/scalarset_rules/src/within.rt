//! The first break of the loops of an opened body.

#![tactic(auto, using(crate::proofs::WithinEquations::within))]

ghost use Rattle.std.specs.Prelude.{◌≡◌, ◌∷◌, [], map, reverse, suc, IfOk, Some, None};
ghost use Rattle.std.specs.List.{flat_map};
ghost use Rattle.scalarset_rules.specs.Accesses.{opened_in, loops_in};
ghost use Rattle.scalarset_rules.specs.Rules.{first_break, loop_breaks, body_breaks};
ghost use Rattle.scalarset_rules.specs.Seen.{seen_loop, scope_at, by_loops};
ghost use Rattle.scalarset_rules.specs.Pieces.{opened_loop, opened_loops, loop_pieces};

use crate::judge::{Break, first_of, loop_break};
use crate::nested::{LoopPiece, loops_of};
use crate::opened::{deeper, open_all, or_call};
use crate::place::Level;
use crate::shape::Stand;
use murphi_ast::text::Memory;
use murphi_ast::token::Span;
use murphi_typed::protocol::Routine;
use murphi_typed::shared::Shared;
use murphi_typed::stmt::Stmt;
use sqlite_items::at;
use std::alloc::Global;

/// The first break of these loops, with all calls opened.
#[cycle(within)]
fn judge_all(
    alloc: Global,
    routines: &[Shared<Routine>],
    depth: u32,
    by: Option<Span>,
    all: &[LoopPiece],
) -> Result<Option<Break>, Memory>
    ensures { IfOk result (λ b. b ≡ first_break (flat_map loop_breaks (by_loops by (opened_loops (opened_in (reverse routines.now)) (loops_in (reverse routines.now)) depth (map seen_loop all.now))))) }
{
    let mut first = None;
    for one in all {
        let more = judge_one(alloc, routines, depth, by, one)?;
        first = first_of(first, more);
    }
    Ok(first)
}

#[cycle(within)]
fn judge_one(
    alloc: Global,
    routines: &[Shared<Routine>],
    depth: u32,
    by: Option<Span>,
    one: &LoopPiece,
) -> Result<Option<Break>, Memory>
    ensures { IfOk result (λ b. b ≡ first_break (flat_map loop_breaks (by_loops by (opened_loop (opened_in (reverse routines.now)) (loops_in (reverse routines.now)) depth (seen_loop one.now))))) }
{
    match one {
        LoopPiece::Around { variable, pieces } => {
            let accesses = open_all(alloc, routines, depth, by, pieces.as_slice())?;
            Ok(loop_break(*variable, accesses.as_slice()))
        }
        LoopPiece::Within {
            routine,
            stands,
            at,
        } => {
            let call = or_call(by, *at);
            let b = enter_loops(alloc, routines, depth, call, *routine, stands.as_slice())?;
            Ok(b)
        }
    }
}

#[cycle(within)]
fn enter_loops(
    alloc: Global,
    routines: &[Shared<Routine>],
    depth: u32,
    call: Span,
    routine: u32,
    stands: &[Stand],
) -> Result<Option<Break>, Memory>
    ensures { IfOk result (λ b. b ≡ first_break (flat_map loop_breaks (by_loops (Some call) (loops_in (reverse routines.now) routine (scope_at (suc depth) 0 stands.now))))) }
{
    let k = routine as usize;
    if k >= routines.len() {
        return Ok(None);
    }
    match at(routines, k) {
        None => Ok(None),
        Some(r) => {
            let level = deeper(depth)?;
            let all = loops_of(alloc, level, stands, &r.get().body)?;
            let b = judge_all(
                alloc,
                &routines[..k],
                level.depth,
                Some(call),
                all.as_slice(),
            )?;
            Ok(b)
        }
    }
}

/// The first break of the loops of a body, with all calls opened.
pub(crate) fn body_break(
    alloc: Global,
    routines: &[Shared<Routine>],
    level: Level,
    stands: &[Stand],
    body: &Stmt,
) -> Result<Option<Break>, Memory>
    ensures { IfOk result (λ b. b ≡ first_break (body_breaks routines.now (scope_at level.depth level.bound stands.now) body.now)) }
{
    let all = loops_of(alloc, level, stands, body)?;
    let b = judge_all(alloc, routines, level.depth, None, all.as_slice())?;
    Ok(b)
}
