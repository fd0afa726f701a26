//! The walk over expressions and types.
#![tactic(auto, using(crate::proofs::ExprEquations::expressions))]

ghost use Rattle.std.specs.Prelude.{◌≡◌, IfOk};
ghost use Rattle.type_names.specs.Gathering.{in_expr, in_type, in_place, in_selector, in_record, list_links, list_selectors, list_exprs, list_fields};

use crate::gathered::{Gathered, add_fault, add_names, hidden_by, use_name};
use crate::scope::{declare_fields, no_names};
use murphi_ast::expr::{Designator, Expr, FieldDecl, Link, Selector, TypeExpr};
use murphi_ast::text::{Memory, Text};
use std::alloc::Global;

/// An expression, where a name is sought in it that something inner may hide.
#[cycle(walk)]
pub fn walk(
    e: &Expr,
    alloc: Global,
    name: &Text,
    hidden: bool,
    so_far: Gathered,
) -> Result<Gathered, Memory>
    ensures { IfOk result (λ g. g ≡ in_expr name.now hidden e.now so_far) }
{
    match e {
        Expr::Number { .. } => Ok(so_far),
        Expr::Truth { .. } => Ok(so_far),
        Expr::Place(place) => {
            let g = walk_place(place, alloc, name, hidden, so_far)?;
            Ok(g)
        }
        Expr::IsUndefined { place, .. } => {
            let g = walk_place(place, alloc, name, hidden, so_far)?;
            Ok(g)
        }
        Expr::Call { args, .. } => {
            let g = walk_exprs(args.as_slice(), alloc, name, hidden, so_far)?;
            Ok(g)
        }
        Expr::Not { body, .. } => {
            let g = walk(body.get(), alloc, name, hidden, so_far)?;
            Ok(g)
        }
        Expr::Minus { body, .. } => {
            let g = walk(body.get(), alloc, name, hidden, so_far)?;
            Ok(g)
        }
        Expr::Chain { first, rest } => {
            let g = walk(first.get(), alloc, name, hidden, so_far)?;
            let g = walk_links(rest.as_slice(), alloc, name, hidden, g)?;
            Ok(g)
        }
        Expr::Compare { left, right, .. } => {
            let g = walk(left.get(), alloc, name, hidden, so_far)?;
            let g = walk(right.get(), alloc, name, hidden, g)?;
            Ok(g)
        }
        Expr::Implies { left, right } => {
            let g = walk(left.get(), alloc, name, hidden, so_far)?;
            let g = walk(right.get(), alloc, name, hidden, g)?;
            Ok(g)
        }
        Expr::Choice { test, yes, no } => {
            let g = walk(test.get(), alloc, name, hidden, so_far)?;
            let g = walk(yes.get(), alloc, name, hidden, g)?;
            let g = walk(no.get(), alloc, name, hidden, g)?;
            Ok(g)
        }
        Expr::Quantified { bind, body, .. } => {
            let g = walk_type(&bind.get().over, alloc, name, hidden, so_far)?;
            let inside = hidden_by(hidden, name, &bind.get().name);
            let g = walk(body.get(), alloc, name, inside, g)?;
            Ok(g)
        }
    }
}

/// The further operands of a chain.
#[cycle(walk)]
fn walk_links(
    all: &[Link],
    alloc: Global,
    name: &Text,
    hidden: bool,
    so_far: Gathered,
) -> Result<Gathered, Memory>
    ensures { IfOk result (λ g. g ≡ list_links name.now hidden all.now so_far) }
{
    let mut g = so_far;
    for one in all {
        g = walk(&one.operand, alloc, name, hidden, g)?;
    }
    Ok(g)
}

/// A designator.
#[cycle(walk)]
pub fn walk_place(
    place: &Designator,
    alloc: Global,
    name: &Text,
    hidden: bool,
    so_far: Gathered,
) -> Result<Gathered, Memory>
    ensures { IfOk result (λ g. g ≡ in_place name.now hidden place.now so_far) }
{
    let g = use_name(&place.root, name, hidden, so_far)?;
    let g = walk_selectors(place.selectors.as_slice(), alloc, name, hidden, g)?;
    Ok(g)
}

#[cycle(walk)]
fn walk_selectors(
    all: &[Selector],
    alloc: Global,
    name: &Text,
    hidden: bool,
    so_far: Gathered,
) -> Result<Gathered, Memory>
    ensures { IfOk result (λ g. g ≡ list_selectors name.now hidden all.now so_far) }
{
    let mut g = so_far;
    for one in all {
        g = walk_selector(one, alloc, name, hidden, g)?;
    }
    Ok(g)
}

#[cycle(walk)]
fn walk_selector(
    one: &Selector,
    alloc: Global,
    name: &Text,
    hidden: bool,
    so_far: Gathered,
) -> Result<Gathered, Memory>
    ensures { IfOk result (λ g. g ≡ in_selector name.now hidden one.now so_far) }
{
    match one {
        Selector::Field(_) => Ok(so_far),
        Selector::Index(index) => {
            let g = walk(index, alloc, name, hidden, so_far)?;
            Ok(g)
        }
    }
}

/// Arguments, or the labels of a case.
#[cycle(walk)]
pub fn walk_exprs(
    all: &[Expr],
    alloc: Global,
    name: &Text,
    hidden: bool,
    so_far: Gathered,
) -> Result<Gathered, Memory>
    ensures { IfOk result (λ g. g ≡ list_exprs name.now hidden all.now so_far) }
{
    let mut g = so_far;
    for one in all {
        g = walk(one, alloc, name, hidden, g)?;
    }
    Ok(g)
}

/// A type.
#[cycle(walk)]
pub fn walk_type(
    t: &TypeExpr,
    alloc: Global,
    name: &Text,
    hidden: bool,
    so_far: Gathered,
) -> Result<Gathered, Memory>
    ensures { IfOk result (λ g. g ≡ in_type name.now hidden t.now so_far) }
{
    match t {
        TypeExpr::Known(_) => Ok(so_far),
        TypeExpr::Truth(_) => Ok(so_far),
        TypeExpr::Range { low, high } => {
            let g = walk(low.get(), alloc, name, hidden, so_far)?;
            let g = walk(high.get(), alloc, name, hidden, g)?;
            Ok(g)
        }
        TypeExpr::Listed { names, .. } => {
            let g = add_names(names.as_slice(), alloc, so_far)?;
            Ok(g)
        }
        TypeExpr::Scalarset { size, .. } => {
            let g = walk(size.get(), alloc, name, hidden, so_far)?;
            Ok(g)
        }
        TypeExpr::Fields { fields, .. } => {
            let g = walk_record(fields.as_slice(), alloc, name, hidden, so_far)?;
            Ok(g)
        }
        TypeExpr::Array { index, item, .. } => {
            let g = walk_type(index.get(), alloc, name, hidden, so_far)?;
            let g = walk_type(item.get(), alloc, name, hidden, g)?;
            Ok(g)
        }
    }
}

/// The fields of a record, a scope of their own.
#[cycle(walk)]
fn walk_record(
    all: &[FieldDecl],
    alloc: Global,
    name: &Text,
    hidden: bool,
    so_far: Gathered,
) -> Result<Gathered, Memory>
    ensures { IfOk result (λ g. g ≡ in_record name.now hidden all.now so_far) }
{
    let scope = declare_fields(all, alloc, no_names(alloc))?;
    let mut g = add_fault(scope.fault, so_far);
    for one in all {
        g = walk_type(&one.body, alloc, name, hidden, g)?;
    }
    Ok(g)
}
