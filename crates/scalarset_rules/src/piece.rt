//! What a body reads, writes and calls, with no call opened, in the order of the text.

#![tactic(auto, using(crate::proofs::PieceEquations::pieces))]

ghost use Rattle.std.specs.Prelude.{◌≡◌, ◌++◌, ◌∷◌, [], map, IfOk};
ghost use Rattle.std.specs.List.{flat_map};
ghost use Rattle.scalarset_rules.specs.Seen.{seen_piece, scope_at};
ghost use Rattle.scalarset_rules.specs.Pieces.{Touch, Enter, read_pieces, index_pieces, argument_pieces, one_argument_pieces, read_place, write_place, pieces, list_chain, list_indices, list_arguments, list_pieces, list_arms, list_cases, selectors_of, arguments_in};
ghost use Rattle.scalarset_rules.specs.Accesses.{accessed, stands_of};

use crate::place::{Level, access, given, inside};
use crate::shape::{Access, Stand};
use murphi_ast::text::Memory;
use murphi_ast::token::Span;
use murphi_typed::expr::{Argument, Arguments, Designator, Expr, Link, Selector};
use murphi_typed::stmt::{Arm, Case, Stmt};
use sqlite_items::Items;
use std::alloc::Global;

/// A designator that is read or written, or a call: the routine by its number, what its formals stand
/// for, and the place of its name.
#[derive(Drop)]
pub(crate) enum Piece {
    Touch(Access),
    Enter {
        routine: u32,
        stands: Items<Stand>,
        at: Span,
    },
}

pub(crate) fn touch(
    alloc: Global,
    level: Level,
    stands: &[Stand],
    write: bool,
    place: &Designator,
) -> Result<Items<Piece>, Memory>
    ensures { IfOk result (λ v. map seen_piece v ≡ Touch (accessed write (scope_at level.depth level.bound stands.now) place.now) ∷ []) }
{
    let touched = access(alloc, level, stands, write, place)?;
    let mut out = Items::new(alloc);
    out.push(Piece::Touch(touched))?;
    Ok(out)
}

pub(crate) fn with_call(
    alloc: Global,
    level: Level,
    stands: &[Stand],
    front: Items<Piece>,
    routine: u32,
    args: &Arguments,
    at: Span,
) -> Result<Items<Piece>, Memory>
    ensures { IfOk result (λ v. map seen_piece v ≡ map seen_piece front ++ Enter routine (stands_of (scope_at level.depth level.bound stands.now) args.now) at ∷ []) }
{
    let given = given(alloc, level, stands, args)?;
    let mut out = front;
    out.push(Piece::Enter {
        routine,
        stands: given,
        at,
    })?;
    Ok(out)
}

pub(crate) fn joined(first: Items<Piece>, second: Items<Piece>) -> Result<Items<Piece>, Memory>
    ensures { IfOk result (λ v. map seen_piece v ≡ map seen_piece first ++ map seen_piece second) }
{
    let mut out = first;
    out.append(second)?;
    Ok(out)
}

/// What an expression reads and calls.
#[cycle(reads)]
pub(crate) fn reads(
    alloc: Global,
    level: Level,
    stands: &[Stand],
    e: &Expr,
) -> Result<Items<Piece>, Memory>
    ensures { IfOk result (λ v. map seen_piece v ≡ read_pieces (scope_at level.depth level.bound stands.now) e.now) }
{
    match e {
        Expr::Known(_) | Expr::Bound(_) => Ok(Items::new(alloc)),
        Expr::Read(place) | Expr::IsUndefined(place) => {
            let first = touch(alloc, level, stands, false, place)?;
            let second = indices(alloc, level, stands, place)?;
            let out = joined(first, second)?;
            Ok(out)
        }
        Expr::Call { routine, args, at } => {
            let front = arguments(alloc, level, stands, args)?;
            let out = with_call(alloc, level, stands, front, *routine, args, *at)?;
            Ok(out)
        }
        Expr::Not(body) | Expr::Minus(body) => {
            let out = reads(alloc, level, stands, body.get())?;
            Ok(out)
        }
        Expr::Chain { first, rest } => {
            let first = reads(alloc, level, stands, first.get())?;
            let second = chain(alloc, level, stands, rest.as_slice())?;
            let out = joined(first, second)?;
            Ok(out)
        }
        Expr::Compare { left, right, .. } | Expr::Implies { left, right } => {
            let first = reads(alloc, level, stands, left.get())?;
            let second = reads(alloc, level, stands, right.get())?;
            let out = joined(first, second)?;
            Ok(out)
        }
        Expr::Choice { test, yes, no } => {
            let first = reads(alloc, level, stands, test.get())?;
            let second = reads(alloc, level, stands, yes.get())?;
            let third = reads(alloc, level, stands, no.get())?;
            let rest = joined(second, third)?;
            let out = joined(first, rest)?;
            Ok(out)
        }
        Expr::Quantified { body, .. } => {
            let inner = inside(level)?;
            let out = reads(alloc, inner, stands, body.get())?;
            Ok(out)
        }
    }
}

#[cycle(reads)]
fn chain(
    alloc: Global,
    level: Level,
    stands: &[Stand],
    rest: &[Link],
) -> Result<Items<Piece>, Memory>
    ensures { IfOk result (λ v. map seen_piece v ≡ list_chain (scope_at level.depth level.bound stands.now) rest.now) }
{
    let mut out = Items::new(alloc);
    for link in rest {
        let more = reads(alloc, level, stands, &link.operand)?;
        out = joined(out, more)?;
    }
    Ok(out)
}

/// What the indices of a designator read and call.
#[cycle(reads)]
pub(crate) fn indices(
    alloc: Global,
    level: Level,
    stands: &[Stand],
    place: &Designator,
) -> Result<Items<Piece>, Memory>
    ensures { IfOk result (λ v. map seen_piece v ≡ index_pieces (scope_at level.depth level.bound stands.now) place.now) }
{
    match place {
        Designator::Of { selectors, .. } => {
            let out = selected(alloc, level, stands, selectors.as_slice())?;
            Ok(out)
        }
    }
}

#[cycle(reads)]
fn selected(
    alloc: Global,
    level: Level,
    stands: &[Stand],
    selectors: &[Selector],
) -> Result<Items<Piece>, Memory>
    ensures { IfOk result (λ v. map seen_piece v ≡ list_indices (scope_at level.depth level.bound stands.now) selectors.now) }
{
    let mut out = Items::new(alloc);
    for selector in selectors {
        match selector {
            Selector::Field(_) => {}
            Selector::Index { index, .. } => {
                let more = reads(alloc, level, stands, index)?;
                out = joined(out, more)?;
            }
        }
    }
    Ok(out)
}

/// What the arguments of a call read and call where it is written.
#[cycle(reads)]
pub(crate) fn arguments(
    alloc: Global,
    level: Level,
    stands: &[Stand],
    args: &Arguments,
) -> Result<Items<Piece>, Memory>
    ensures { IfOk result (λ v. map seen_piece v ≡ argument_pieces (scope_at level.depth level.bound stands.now) args.now) }
{
    match args {
        Arguments::Of(args) => {
            let out = argument_list(alloc, level, stands, args.as_slice())?;
            Ok(out)
        }
    }
}

#[cycle(reads)]
fn argument_list(
    alloc: Global,
    level: Level,
    stands: &[Stand],
    args: &[Argument],
) -> Result<Items<Piece>, Memory>
    ensures { IfOk result (λ v. map seen_piece v ≡ list_arguments (scope_at level.depth level.bound stands.now) args.now) }
{
    let mut out = Items::new(alloc);
    for arg in args {
        let more = argument(alloc, level, stands, arg)?;
        out = joined(out, more)?;
    }
    Ok(out)
}

#[cycle(reads)]
fn argument(
    alloc: Global,
    level: Level,
    stands: &[Stand],
    arg: &Argument,
) -> Result<Items<Piece>, Memory>
    ensures { IfOk result (λ v. map seen_piece v ≡ one_argument_pieces (scope_at level.depth level.bound stands.now) arg.now) }
{
    match arg {
        Argument::Copy(place) | Argument::CopyAll(place) => {
            let first = touch(alloc, level, stands, false, place)?;
            let second = indices(alloc, level, stands, place)?;
            let out = joined(first, second)?;
            Ok(out)
        }
        Argument::Value(e) => {
            let out = reads(alloc, level, stands, e)?;
            Ok(out)
        }
        Argument::Place(place) => {
            let out = indices(alloc, level, stands, place)?;
            Ok(out)
        }
    }
}
