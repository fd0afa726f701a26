//! Bodies with their calls opened: what they read and write.

#![tactic(auto, using(crate::proofs::OpenEquations::opening))]

ghost use Rattle.std.specs.Prelude.{◌≡◌, ◌++◌, ◌∷◌, [], map, reverse, suc, IfOk, Some};
ghost use Rattle.scalarset_rules.specs.Accesses.{from_call, opened_in};
ghost use Rattle.scalarset_rules.specs.Seen.{seen_access, seen_piece, scope_at, by_access, by_call, or_call};
ghost use Rattle.scalarset_rules.specs.Pieces.{opened_piece, opened_pieces};

use crate::piece::Piece;
use crate::place::{Level, copy_shape};
use crate::shape::{Access, Stand};
use crate::touch::touches;
use murphi_ast::text::Memory;
use murphi_ast::token::Span;
use murphi_typed::protocol::Routine;
use murphi_typed::shared::Shared;
use sqlite_items::{Items, at};
use std::alloc::Global;

/// The call that is written in the body itself: the one that is open already, or this one.
pub(crate) fn or_call(by: Option<Span>, call: Span) -> Span
    ensures { result ≡ or_call by call }
{
    match by {
        None => call,
        Some(first) => first,
    }
}

fn copy_access(alloc: Global, a: &Access, by: Option<Span>) -> Result<Access, Memory>
    ensures { IfOk result (λ b. seen_access b ≡ by_access by (seen_access a.now)) }
{
    let shape = copy_shape(alloc, &a.shape)?;
    let from = match by {
        None => a.by,
        Some(call) => Some(call),
    };
    Ok(Access {
        write: a.write,
        shape,
        at: a.at,
        by: from,
    })
}

fn one_access(alloc: Global, a: &Access, by: Option<Span>) -> Result<Items<Access>, Memory>
    ensures { IfOk result (λ v. map seen_access v ≡ by_access by (seen_access a.now) ∷ []) }
{
    let a = copy_access(alloc, a, by)?;
    let mut out = Items::new(alloc);
    out.push(a)?;
    Ok(out)
}

fn both(first: Items<Access>, second: Items<Access>) -> Result<Items<Access>, Memory>
    ensures { IfOk result (λ v. map seen_access v ≡ map seen_access first ++ map seen_access second) }
{
    let mut out = first;
    out.append(second)?;
    Ok(out)
}

/// The body of a routine that is called from one of this depth. A depth past the greatest u32 is want
/// of memory.
pub(crate) fn deeper(depth: u32) -> Result<Level, Memory>
    ensures depth { IfOk result (λ l. l.depth ≡ suc depth) }
    ensures bound { IfOk result (λ l. l.bound ≡ 0) }
{
    match depth.checked_add(1) {
        Some(depth) => Ok(Level { depth, bound: 0 }),
        None => Err(Memory),
    }
}

/// What pieces read and write, with all calls opened.
#[cycle(opening)]
pub(crate) fn open_all(
    alloc: Global,
    routines: &[Shared<Routine>],
    depth: u32,
    by: Option<Span>,
    pieces: &[Piece],
) -> Result<Items<Access>, Memory>
    ensures { IfOk result (λ v. map seen_access v ≡ by_call by (opened_pieces (opened_in (reverse routines.now)) depth (map seen_piece pieces.now))) }
{
    let mut out = Items::new(alloc);
    for piece in pieces {
        let more = open_one(alloc, routines, depth, by, piece)?;
        out = both(out, more)?;
    }
    Ok(out)
}

#[cycle(opening)]
fn open_one(
    alloc: Global,
    routines: &[Shared<Routine>],
    depth: u32,
    by: Option<Span>,
    piece: &Piece,
) -> Result<Items<Access>, Memory>
    ensures { IfOk result (λ v. map seen_access v ≡ by_call by (opened_piece (opened_in (reverse routines.now)) depth (seen_piece piece.now))) }
{
    match piece {
        Piece::Touch(a) => {
            let out = one_access(alloc, a, by)?;
            Ok(out)
        }
        Piece::Enter {
            routine,
            stands,
            at,
        } => {
            let call = or_call(by, *at);
            let out = enter(alloc, routines, depth, call, *routine, stands.as_slice())?;
            Ok(out)
        }
    }
}

#[cycle(opening)]
fn enter(
    alloc: Global,
    routines: &[Shared<Routine>],
    depth: u32,
    call: Span,
    routine: u32,
    stands: &[Stand],
) -> Result<Items<Access>, Memory>
    ensures { IfOk result (λ v. map seen_access v ≡ from_call call (opened_in (reverse routines.now) routine (scope_at (suc depth) 0 stands.now))) }
{
    let k = routine as usize;
    if k >= routines.len() {
        return Ok(Items::new(alloc));
    }
    match at(routines, k) {
        None => Ok(Items::new(alloc)),
        Some(r) => {
            let level = deeper(depth)?;
            let pieces = touches(alloc, level, stands, &r.get().body)?;
            let out = open_all(
                alloc,
                &routines[..k],
                level.depth,
                Some(call),
                pieces.as_slice(),
            )?;
            Ok(out)
        }
    }
}
