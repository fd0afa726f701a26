//! The walk over expressions.
#![tactic(auto, using(crate::proofs::WalkEquations::walks))]

ghost use Rattle.std.specs.Prelude.{◌≡◌, IfOk};
ghost use Rattle.type_prefixes.specs.Summaries.{called, touched};
ghost use Rattle.type_prefixes.specs.Walks.{walked, place_walked, args_walked, arg_walked, labels_walked};
ghost use Rattle.type_prefixes.specs.WalkLists.{list_links, list_indices, selector_walked, list_args};

use crate::depth::{Depth, added, first_of, formals_of, later, own_of, touch, walk_root};
use murphi_ast::text::Memory;
use murphi_typed::expr::{Argument, Arguments, Designator, Expr, Link, Selector};

/// An expression that stands inside so many levels.
#[cycle(walk)]
pub fn walk(e: &Expr, routines: &[Depth], inside: u32, so_far: Depth) -> Result<Depth, Memory>
    ensures { IfOk result (λ d. d ≡ walked routines.now e.now inside so_far) }
{
    match e {
        Expr::Known(_) => Ok(touch(so_far, inside)),
        Expr::Bound(_) => Ok(touch(so_far, inside)),
        Expr::Read(place) => {
            let depth = walk_place(place, routines, inside, so_far)?;
            Ok(depth)
        }
        Expr::Call { routine, args, .. } => {
            let own = added(inside, own_of(routines, *routine))?;
            let places = formals_of(routines, *routine);
            let depth = walk_args(args, routines, places, inside, touch(so_far, own))?;
            Ok(depth)
        }
        Expr::Not(body) => {
            let depth = walk(body.get(), routines, inside, so_far)?;
            Ok(depth)
        }
        Expr::Minus(body) => {
            let depth = walk(body.get(), routines, inside, so_far)?;
            Ok(depth)
        }
        Expr::Chain { first, rest } => {
            let depth = walk(first.get(), routines, inside, so_far)?;
            let depth = walk_links(rest.as_slice(), routines, inside, depth)?;
            Ok(depth)
        }
        Expr::Compare { left, right, .. } => {
            let depth = walk(left.get(), routines, inside, so_far)?;
            let depth = walk(right.get(), routines, inside, depth)?;
            Ok(depth)
        }
        Expr::Implies { left, right } => {
            let depth = walk(left.get(), routines, inside, so_far)?;
            let depth = walk(right.get(), routines, inside, depth)?;
            Ok(depth)
        }
        Expr::Choice { test, yes, no } => {
            let depth = walk(test.get(), routines, inside, so_far)?;
            let depth = walk(yes.get(), routines, inside, depth)?;
            let depth = walk(no.get(), routines, inside, depth)?;
            Ok(depth)
        }
        Expr::Quantified { over, body, .. } => {
            let inner = over.level(inside)?;
            let depth = walk(body.get(), routines, inner, so_far)?;
            Ok(depth)
        }
        Expr::IsUndefined(place) => {
            let depth = walk_place(place, routines, inside, so_far)?;
            Ok(depth)
        }
    }
}

#[cycle(walk)]
fn walk_links(all: &[Link], routines: &[Depth], inside: u32, so_far: Depth) -> Result<Depth, Memory>
    ensures { IfOk result (λ d. d ≡ list_links routines.now all.now inside so_far) }
{
    let mut depth = so_far;
    for one in all {
        depth = walk(&one.operand, routines, inside, depth)?;
    }
    Ok(touch(depth, inside))
}

/// A designator.
#[cycle(walk)]
pub fn walk_place(
    place: &Designator,
    routines: &[Depth],
    inside: u32,
    so_far: Depth,
) -> Result<Depth, Memory>
    ensures { IfOk result (λ d. d ≡ place_walked routines.now place.now inside so_far) }
{
    match place {
        Designator::Of {
            root,
            selectors,
            ..
        } => {
            let depth = walk_root(*root, inside, so_far)?;
            let depth = walk_indices(selectors.as_slice(), routines, inside, depth)?;
            Ok(depth)
        }
    }
}

#[cycle(walk)]
fn walk_indices(
    all: &[Selector],
    routines: &[Depth],
    inside: u32,
    so_far: Depth,
) -> Result<Depth, Memory>
    ensures { IfOk result (λ d. d ≡ list_indices routines.now all.now inside so_far) }
{
    let mut depth = so_far;
    for one in all {
        depth = walk_selector(one, routines, inside, depth)?;
    }
    Ok(touch(depth, inside))
}

#[cycle(walk)]
fn walk_selector(
    one: &Selector,
    routines: &[Depth],
    inside: u32,
    so_far: Depth,
) -> Result<Depth, Memory>
    ensures { IfOk result (λ d. d ≡ selector_walked routines.now one.now inside so_far) }
{
    match one {
        Selector::Field(_) => Ok(so_far),
        Selector::Index { index, .. } => {
            let depth = walk(index, routines, inside, so_far)?;
            Ok(depth)
        }
    }
}

/// The arguments of a call, for formals that are used at these places.
#[cycle(walk)]
pub fn walk_args(
    args: &Arguments,
    routines: &[Depth],
    places: &[u32],
    inside: u32,
    so_far: Depth,
) -> Result<Depth, Memory>
    ensures { IfOk result (λ d. d ≡ args_walked routines.now places.now args.now inside so_far) }
{
    match args {
        Arguments::Of(all) => {
            let depth = walk_list(all.as_slice(), routines, places, inside, so_far)?;
            Ok(depth)
        }
    }
}

#[cycle(walk)]
fn walk_list(
    all: &[Argument],
    routines: &[Depth],
    places: &[u32],
    inside: u32,
    so_far: Depth,
) -> Result<Depth, Memory>
    ensures { IfOk result (λ d. d ≡ list_args routines.now places.now all.now inside so_far) }
{
    let mut depth = so_far;
    let mut left = places;
    for one in all {
        let below = added(inside, first_of(left))?;
        depth = walk_arg(one, routines, below, depth)?;
        left = later(left);
    }
    Ok(touch(depth, inside))
}

#[cycle(walk)]
fn walk_arg(one: &Argument, routines: &[Depth], inside: u32, so_far: Depth) -> Result<Depth, Memory>
    ensures { IfOk result (λ d. d ≡ arg_walked routines.now one.now inside so_far) }
{
    match one {
        Argument::Copy(place) => {
            let depth = walk_place(place, routines, inside, so_far)?;
            Ok(depth)
        }
        Argument::CopyAll(place) => {
            let depth = walk_place(place, routines, inside, so_far)?;
            Ok(depth)
        }
        Argument::Value(body) => {
            let depth = walk(body, routines, inside, so_far)?;
            Ok(depth)
        }
        Argument::Place(place) => {
            let depth = walk_place(place, routines, inside, so_far)?;
            Ok(depth)
        }
    }
}

/// The labels of a case.
pub(crate) fn walk_labels(
    all: &[Expr],
    routines: &[Depth],
    inside: u32,
    so_far: Depth,
) -> Result<Depth, Memory>
    ensures { IfOk result (λ d. d ≡ labels_walked routines.now all.now inside so_far) }
{
    let mut depth = so_far;
    for one in all {
        depth = walk(one, routines, inside, depth)?;
    }
    Ok(touch(depth, inside))
}
