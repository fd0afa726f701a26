//! What a designator, an index and an argument stand for, in a body at a depth in calls whose formals
//! stand for something.

#![tactic(auto, using(crate::proofs::PlaceEquations::places))]

ghost use Rattle.std.specs.Prelude.{◌≡◌, ◌++◌, ◌∷◌, [], suc, map, IfOk, slice_get};
ghost use Rattle.murphi_typed.specs.Store.{Formal};
ghost use Rattle.murphi_typed.specs.Execution.{at_of};
ghost use Rattle.murphi_typed.specs.WellTyped.{root_of};
ghost use Rattle.scalarset_rules.specs.Accesses.{stand_mark, root_mark, place_mark, mark, placed_shape, root_shape, shape_of, argument_stand, stands_of, accessed};
ghost use Rattle.scalarset_rules.specs.Seen.{seen_shape, seen_stand, seen_access, scope_at};
ghost use Rattle.scalarset_rules.specs.Pieces.{selectors_of, arguments_in, list_parts, list_stands};

use crate::shape::{Access, Binder, Part, Shape, Stand, Variable};
use murphi_ast::text::Memory;
use murphi_ast::token::Span;
use murphi_typed::expr::{Argument, Arguments, Designator, Expr, Root, Selector};
use sqlite_items::{Items, at};
use std::alloc::Global;

/// A body: its depth in calls, and how many variables are bound around what is read.
#[derive(Debug, Clone, Copy, PartialEq, Eq)]
pub(crate) struct Level {
    pub depth: u32,
    pub bound: u32,
}

/// Inside a quantifier or a `for`. A count past the greatest u32 is want of memory.
pub(crate) fn inside(level: Level) -> Result<Level, Memory>
    ensures depth { IfOk result (λ l. l.depth ≡ level.depth) }
    ensures bound { IfOk result (λ l. l.bound ≡ suc level.bound) }
{
    match level.bound.checked_add(1) {
        Some(bound) => Ok(Level {
            depth: level.depth,
            bound,
        }),
        None => Err(Memory),
    }
}

fn formal_mark(stands: &[Stand], k: u32) -> Option<Binder>
    ensures { result ≡ stand_mark (slice_get (map seen_stand stands.now) k) }
{
    match at(stands, k as usize) {
        Some(Stand::Valued(v)) => *v,
        Some(Stand::Placed(_)) => None,
        None => None,
    }
}

fn mark_of_root(level: Level, stands: &[Stand], root: Root) -> Option<Binder>
    ensures { result ≡ root_mark (scope_at level.depth level.bound stands.now) root }
{
    match root {
        Root::Formal(k) => formal_mark(stands, k),
        Root::Global(_) => None,
        Root::Local(_) => None,
        Root::Place(_) => None,
    }
}

/// The variable of a designator.
fn root_of(place: &Designator) -> Root
    ensures { result ≡ root_of place.now }
{
    match place {
        Designator::Of { root, .. } => *root,
    }
}

/// The fields and indices of a designator.
pub(crate) fn selectors_of(place: &Designator) -> &[Selector]
    ensures { result.now ≡ selectors_of place.now }
{
    match place {
        Designator::Of { selectors, .. } => selectors.as_slice(),
    }
}

/// The arguments of a call.
pub(crate) fn arguments_in(args: &Arguments) -> &[Argument]
    ensures { result.now ≡ arguments_in args.now }
{
    match args {
        Arguments::Of(args) => args.as_slice(),
    }
}

fn mark_of_place(level: Level, stands: &[Stand], place: &Designator) -> Option<Binder>
    ensures { result ≡ place_mark (scope_at level.depth level.bound stands.now) place.now }
{
    let m = mark_of_root(level, stands, root_of(place));
    match at(selectors_of(place), 0) {
        None => m,
        Some(_) => None,
    }
}

/// The bound variable that an expression is itself.
fn mark_of(level: Level, stands: &[Stand], e: &Expr) -> Option<Binder>
    ensures { result ≡ mark (scope_at level.depth level.bound stands.now) e.now }
{
    match e {
        Expr::Bound(k) => Some(Binder {
            depth: level.depth,
            number: *k,
        }),
        Expr::Read(place) => mark_of_place(level, stands, place),
        Expr::Known(_)
        | Expr::Call { .. }
        | Expr::Not(_)
        | Expr::Minus(_)
        | Expr::Chain { .. }
        | Expr::Compare { .. }
        | Expr::Implies { .. }
        | Expr::Choice { .. }
        | Expr::Quantified { .. }
        | Expr::IsUndefined(_) => None,
    }
}

fn copy_part(alloc: Global, part: &Part) -> Result<Part, Memory>
    ensures { IfOk result (λ p. p ≡ part.now) }
{
    match part {
        Part::Field(name) => {
            let name = name.copy(alloc)?;
            Ok(Part::Field(name))
        }
        Part::Index(m) => Ok(Part::Index(*m)),
    }
}

fn copy_parts(alloc: Global, all: &[Part]) -> Result<Items<Part>, Memory>
    ensures { IfOk result (λ v. v ≡ all.now) }
{
    let mut out = Items::new(alloc);
    for part in all {
        let part = copy_part(alloc, part)?;
        out.push(part)?;
    }
    Ok(out)
}

pub(crate) fn copy_shape(alloc: Global, shape: &Shape) -> Result<Shape, Memory>
    ensures { IfOk result (λ s. s ≡ shape.now) }
{
    let parts = copy_parts(alloc, shape.parts.as_slice())?;
    Ok(Shape {
        owner: shape.owner,
        parts,
    })
}

fn whole(alloc: Global, owner: Variable) -> Shape
    ensures owner { result.owner ≡ owner }
    ensures parts { result.parts ≡ [] }
{
    Shape {
        owner,
        parts: Items::new(alloc),
    }
}

fn shape_of_root(alloc: Global, level: Level, stands: &[Stand], root: Root) -> Result<Shape, Memory>
    ensures { IfOk result (λ s. seen_shape s ≡ root_shape (scope_at level.depth level.bound stands.now) root) }
{
    match root {
        Root::Global(k) => Ok(whole(alloc, Variable::Global(k))),
        Root::Local(k) => Ok(whole(
            alloc,
            Variable::Local {
                depth: level.depth,
                number: k,
            },
        )),
        Root::Formal(k) => Ok(whole(
            alloc,
            Variable::Formal {
                depth: level.depth,
                number: k,
            },
        )),
        Root::Place(k) => {
            let shape = placed(alloc, level.depth, stands, k)?;
            Ok(shape)
        }
    }
}

fn placed(alloc: Global, depth: u32, stands: &[Stand], k: u32) -> Result<Shape, Memory>
    ensures { IfOk result (λ s. seen_shape s ≡ placed_shape (Formal depth k) (slice_get (map seen_stand stands.now) k)) }
{
    match at(stands, k as usize) {
        Some(Stand::Placed(shape)) => {
            let shape = copy_shape(alloc, shape)?;
            Ok(shape)
        }
        Some(Stand::Valued(_)) => Ok(whole(alloc, Variable::Formal { depth, number: k })),
        None => Ok(whole(alloc, Variable::Formal { depth, number: k })),
    }
}

fn part_of(
    alloc: Global,
    level: Level,
    stands: &[Stand],
    selector: &Selector,
) -> Result<Part, Memory>
    ensures { IfOk result (λ p. p ∷ [] ≡ list_parts (scope_at level.depth level.bound stands.now) (selector.now ∷ [])) }
{
    match selector {
        Selector::Field(name) => {
            let name = name.copy(alloc)?;
            Ok(Part::Field(name))
        }
        Selector::Index { index, .. } => Ok(Part::Index(mark_of(level, stands, index))),
    }
}

fn add_parts(
    alloc: Global,
    level: Level,
    stands: &[Stand],
    front: Items<Part>,
    selectors: &[Selector],
) -> Result<Items<Part>, Memory>
    ensures { IfOk result (λ v. v ≡ front ++ list_parts (scope_at level.depth level.bound stands.now) selectors.now) }
{
    let mut out = front;
    for selector in selectors {
        let part = part_of(alloc, level, stands, selector)?;
        out.push(part)?;
    }
    Ok(out)
}

/// The shape of a designator.
fn shape(alloc: Global, level: Level, stands: &[Stand], place: &Designator) -> Result<Shape, Memory>
    ensures { IfOk result (λ s. seen_shape s ≡ shape_of (scope_at level.depth level.bound stands.now) place.now) }
{
    let front = shape_of_root(alloc, level, stands, root_of(place))?;
    let parts = add_parts(alloc, level, stands, front.parts, selectors_of(place))?;
    Ok(Shape {
        owner: front.owner,
        parts,
    })
}

pub(crate) fn first_token(place: &Designator) -> Span
    ensures { result ≡ at_of place.now }
{
    match place {
        Designator::Of { at, .. } => *at,
    }
}

/// A designator that is read or written.
pub(crate) fn access(
    alloc: Global,
    level: Level,
    stands: &[Stand],
    write: bool,
    place: &Designator,
) -> Result<Access, Memory>
    ensures { IfOk result (λ a. seen_access a ≡ accessed write (scope_at level.depth level.bound stands.now) place.now) }
{
    let at = first_token(place);
    let shape = shape(alloc, level, stands, place)?;
    Ok(Access {
        write,
        shape,
        at,
        by: None,
    })
}

fn stand_of(alloc: Global, level: Level, stands: &[Stand], arg: &Argument) -> Result<Stand, Memory>
    ensures { IfOk result (λ s. seen_stand s ≡ argument_stand (scope_at level.depth level.bound stands.now) arg.now) }
{
    match arg {
        Argument::Copy(place) => Ok(Stand::Valued(mark_of_place(level, stands, place))),
        Argument::CopyAll(_) => Ok(Stand::Valued(None)),
        Argument::Value(e) => Ok(Stand::Valued(mark_of(level, stands, e))),
        Argument::Place(place) => {
            let shape = shape(alloc, level, stands, place)?;
            Ok(Stand::Placed(shape))
        }
    }
}

fn stand_list(
    alloc: Global,
    level: Level,
    stands: &[Stand],
    args: &[Argument],
) -> Result<Items<Stand>, Memory>
    ensures { IfOk result (λ v. map seen_stand v ≡ list_stands (scope_at level.depth level.bound stands.now) args.now) }
{
    let mut out = Items::new(alloc);
    for arg in args {
        let stand = stand_of(alloc, level, stands, arg)?;
        out.push(stand)?;
    }
    Ok(out)
}

/// What the formals stand for at a call.
pub(crate) fn given(
    alloc: Global,
    level: Level,
    stands: &[Stand],
    args: &Arguments,
) -> Result<Items<Stand>, Memory>
    ensures { IfOk result (λ v. map seen_stand v ≡ stands_of (scope_at level.depth level.bound stands.now) args.now) }
{
    let out = stand_list(alloc, level, stands, arguments_in(args))?;
    Ok(out)
}
