//! Typing of expressions, of designators and calls in them, and of types. What an enum declares for the whole
//! text is handed on from part to part, in text order.
#![tactic(auto, using(crate::proofs::ArmEquations::arms))]

ghost use Rattle.std.specs.Prelude.{◌≡◌, List, ◌∷◌, Option, IfOk, OnOk};
ghost use Rattle.std.specs.Option.{option_copied};
ghost use Rattle.murphi_ast.specs.declared.expr.Link.{Link as WrittenLink};
ghost use Rattle.murphi_ast.specs.declared.expr.Selector.{Selector as WrittenSelector};
ghost use Rattle.murphi_ast.specs.declared.expr.Expr.{Expr as WrittenExpr};
ghost use Rattle.murphi_ast.specs.declared.expr.FieldDecl.{FieldDecl as WrittenField};
ghost use Rattle.murphi_typed.specs.declared.protocol.Formal.{Formal as TypedFormal};
ghost use Rattle.murphi_typed.specs.WellTyped.{first_of, rest_of};
ghost use Rattle.murphi_types.specs.Weights.{stopped};
ghost use Rattle.murphi_types.specs.Places.{place_of};
ghost use Rattle.murphi_types.specs.Scopes.{binding, looked};
ghost use Rattle.murphi_types.specs.Fitting.{is_truth};
ghost use Rattle.murphi_types.specs.Constants.{is_constant};
ghost use Rattle.murphi_types.specs.Found.{wanted};
ghost use Rattle.murphi_types.specs.Types.{Unnamed, number_found};
ghost use Rattle.murphi_types.specs.Typing.{found, type_found};
ghost use Rattle.murphi_types.specs.Lists.{list_selectors, list_arguments};
ghost use Rattle.type_parts.specs.Contexts.{moved};
ghost use Rattle.type_parts.specs.Judging.{linked};
ghost use Rattle.type_forms.specs.Designating.{selected};
ghost use Rattle.type_forms.specs.Calling.{formals_in, given};
ghost use Rattle.type_forms.specs.Writing.{fielded};
ghost use Rattle.type_expressions.specs.PartLists.{list_links, list_fields};
ghost use Rattle.type_expressions.specs.PartsGiven.{part_of, links_of, selectors_of, place_part, arguments_of, type_part, number_part, fields_part, designated, call_part};

use crate::constants::is_constant;
use crate::leaves::{more_links, next, number, operands, truth};
use murphi_ast::expr::{Designator, Expr, FieldDecl, Link, Named, Selector, TypeExpr};
use murphi_ast::text::{Memory, Text};
use murphi_ast::token::Span;
use murphi_typed::protocol::{Formal, Routine};
use murphi_typed::shared::Shared;
use murphi_typed::types::{AnyType, Simple};
use sqlite_items::Items;
use std::alloc::Global;
use type_forms::calls::{call_made, callee, formal_at, more_arguments, placed, valued};
use type_forms::designators::{
    Walked, begin, field_chosen, place_made, read, selectors_made, start_type, undefined_made,
    walk_field, walk_index,
};
use type_forms::written::{
    Naming, array_made, enum_made, more_fields, named_type, number_made, quantified_made,
    range_made, record_made, scalarset_made, simple_wanted,
};
use type_parts::context::Context;
use type_parts::expressions::{
    as_operand, as_truth, chain_made, choice_made, compare_made, implies_made, minus_made, not_made,
};
use type_parts::fitting::simple_part;
use type_parts::judged::{
    Judged, JudgedArguments, JudgedFields, JudgedLinks, JudgedNumber, JudgedPlace, JudgedSelectors,
    JudgedType,
};
use type_parts::places::{place_of, type_place_of};

/// The typed part of an expression.
#[cycle(judge)]
pub fn expr(alloc: Global, context: &mut Context, e: &Expr) -> Result<Judged, Memory>
    ensures part { IfOk result (λ r. r ≡ part_of (found context.old.scope context.old.known e.now)) }
    ensures context { OnOk result (context.new ≡ moved context.old (found context.old.scope context.old.known e.now).known) }
{
    match e {
        Expr::Number { value, .. } => {
            let part = number(*value)?;
            Ok(part)
        }
        Expr::Truth { value, .. } => Ok(truth(*value)),
        Expr::Place(place) => {
            let part = designator(alloc, context, place)?;
            Ok(read(part))
        }
        Expr::IsUndefined { place, .. } => {
            let part = designator(alloc, context, place)?;
            Ok(undefined_made(part))
        }
        Expr::Call { name, args } => {
            let part = call(alloc, context, args.as_slice(), name)?;
            Ok(part)
        }
        Expr::Not { body, .. } => {
            let part = expr(alloc, context, body.get())?;
            let made = not_made(alloc, part, place_of(body.get()))?;
            Ok(made)
        }
        Expr::Minus { body, .. } => {
            let part = expr(alloc, context, body.get())?;
            let made = minus_made(alloc, part, place_of(body.get()))?;
            Ok(made)
        }
        Expr::Chain { first, rest } => {
            let of = operands(rest.as_slice());
            let a = expr(alloc, context, first.get())?;
            let b = links(alloc, context, rest.as_slice(), of)?;
            let made = chain_made(alloc, of, a, place_of(first.get()), b)?;
            Ok(made)
        }
        Expr::Compare { op, left, right } => {
            let a = expr(alloc, context, left.get())?;
            let b = expr(alloc, context, right.get())?;
            let made = compare_made(
                alloc,
                *op,
                a,
                place_of(left.get()),
                b,
                place_of(right.get()),
            )?;
            Ok(made)
        }
        Expr::Implies { left, right } => {
            let a = expr(alloc, context, left.get())?;
            let b = expr(alloc, context, right.get())?;
            let made = implies_made(alloc, a, place_of(left.get()), b, place_of(right.get()))?;
            Ok(made)
        }
        Expr::Choice { test, yes, no } => {
            let a = expr(alloc, context, test.get())?;
            let b = expr(alloc, context, yes.get())?;
            let c = expr(alloc, context, no.get())?;
            let made = choice_made(
                alloc,
                (a, place_of(test.get())),
                (b, place_of(yes.get())),
                (c, place_of(no.get())),
            )?;
            Ok(made)
        }
        Expr::Quantified {
            all,
            bind,
            body,
            ..
        } => {
            let over = type_expr(alloc, context, &bind.get().over)?;
            let over = simple_wanted(over, type_place_of(&bind.get().over));
            let part = bound_body(
                alloc,
                context,
                body.get(),
                &bind.get().name.name,
                simple_part(&over.of),
            )?;
            let made = quantified_made(alloc, *all, over, part)?;
            Ok(made)
        }
    }
}

/// The body of a quantifier, whose variable is in scope in it alone.
#[cycle(judge)]
fn bound_body(
    alloc: Global,
    context: &mut Context,
    body: &Expr,
    name: &Text,
    over: Option<Simple>,
) -> Result<Judged, Memory>
    ensures part { IfOk result (λ r. r ≡ part_of (wanted is_truth (place_of body.now) (found (binding context.old.scope name.now over) context.old.known body.now))) }
    ensures context { OnOk result (context.new ≡ moved context.old (found (binding context.old.scope name.now over) context.old.known body.now).known) }
{
    let bound = context.scope.bound;
    context.enter(alloc, name, over)?;
    let part = expr(alloc, context, body)?;
    context.leave(bound);
    Ok(as_truth(part, place_of(body)))
}

/// The further operands of a chain.
#[cycle(judge)]
fn links(
    alloc: Global,
    context: &mut Context,
    all: &[Link],
    of: Simple,
) -> Result<JudgedLinks, Memory>
    ensures part { IfOk result (λ r. r ≡ links_of (list_links context.old.scope context.old.known of all.now)) }
    ensures context { OnOk result (context.new ≡ moved context.old (list_links context.old.scope context.old.known of all.now).known) }
{
    let mut done = JudgedLinks {
        typed: true,
        trees: Items::new(alloc),
        weight: 0,
        fault: None,
    };
    for one in all {
        link(alloc, context, one, of, &mut done)?;
    }
    Ok(done)
}

/// One operand of a chain more.
#[cycle(judge)]
fn link(
    alloc: Global,
    context: &mut Context,
    one: &Link,
    of: Simple,
    done: &mut JudgedLinks,
) -> Result<(), Memory>
    ensures scope { OnOk result (context.new.scope ≡ context.old.scope) }
    ensures stops { OnOk result (stopped done.old.weight ≡ done.old.weight → stopped done.new.weight ≡ done.new.weight) }
    ensures rest { OnOk result ((rest : List WrittenLink) → linked done.new (list_links context.new.scope context.new.known of rest) ≡ linked done.old (list_links context.old.scope context.old.known of (one.now ∷ rest))) }
{
    let part = expr(alloc, context, &one.operand)?;
    let part = as_operand(part, of, place_of(&one.operand));
    more_links(done, one.op, part)?;
    Ok(())
}

/// A designator.
#[cycle(judge)]
pub fn designator(
    alloc: Global,
    context: &mut Context,
    d: &Designator,
) -> Result<JudgedPlace, Memory>
    ensures part { IfOk result (λ r. r ≡ place_part (designated context.old.scope context.old.known d.now)) }
    ensures context { OnOk result (context.new ≡ moved context.old (designated context.old.scope context.old.known d.now).known) }
{
    let what = context.look(&d.root.name)?;
    let begun = begin(alloc, d.root.at, what)?;
    let rest = selectors(
        alloc,
        context,
        d.selectors.as_slice(),
        d.root.at,
        start_type(&begun.of),
    )?;
    Ok(place_made(d.root.at, begun.start, begun.fault, rest))
}

/// The fields and indices of the designator at a place, after a part of some type.
#[cycle(judge)]
fn selectors(
    alloc: Global,
    context: &mut Context,
    all: &[Selector],
    at: Span,
    of: Option<&AnyType>,
) -> Result<JudgedSelectors, Memory>
    ensures part { IfOk result (λ r. r ≡ selectors_of (list_selectors context.old.scope context.old.known at (option_copied of.entry) all.now)) }
    ensures context { OnOk result (context.new ≡ moved context.old (list_selectors context.old.scope context.old.known at (option_copied of.entry) all.now).known) }
{
    let mut done = Walked {
        trees: Items::new(alloc),
        weight: 0,
        fault: None,
    };
    let mut left = of;
    for one in all {
        left = selector(alloc, context, one, at, left, &mut done)?;
    }
    let made = selectors_made(alloc, left, done)?;
    Ok(made)
}

/// One field or index more, and what it leads to.
#[cycle(judge)]
fn selector<'a>(
    alloc: Global,
    context: &mut Context,
    one: &Selector,
    at: Span,
    of: Option<&'a AnyType>,
    done: &mut Walked,
) -> Result<Option<&'a AnyType>, Memory>
    ensures scope { OnOk result (context.new.scope ≡ context.old.scope) }
    ensures stops { OnOk result (stopped done.old.weight ≡ done.old.weight → stopped done.new.weight ≡ done.new.weight) }
    ensures rest { IfOk result (λ r. (rest : List WrittenSelector) → selected done.new (list_selectors context.new.scope context.new.known at (option_copied r) rest) ≡ selected done.old (list_selectors context.old.scope context.old.known at (option_copied of.entry) (one.now ∷ rest))) }
{
    match one {
        Selector::Field(name) => {
            let (found, fault) = field_chosen(at, name, of);
            walk_field(alloc, name, fault, done)?;
            Ok(found)
        }
        Selector::Index(index) => {
            let part = expr(alloc, context, index)?;
            let found = walk_index(at, place_of(index), part, of, done)?;
            Ok(found)
        }
    }
}

/// A call of a function as an expression.
#[cycle(judge)]
fn call(alloc: Global, context: &mut Context, args: &[Expr], name: &Named) -> Result<Judged, Memory>
    ensures part { IfOk result (λ r. r ≡ part_of (call_part context.old.scope context.old.known name.now args.now)) }
    ensures context { OnOk result (context.new ≡ moved context.old (call_part context.old.scope context.old.known name.now args.now).known) }
{
    let what = context.look(&name.name)?;
    let called = callee(context, name, what)?;
    let given = arguments(alloc, context, args, name.at, &called.routine)?;
    Ok(call_made(context.scope.in_function, name.at, called, given))
}

/// What the call at a place gives to the formals of a routine.
#[cycle(judge)]
pub fn arguments(
    alloc: Global,
    context: &mut Context,
    all: &[Expr],
    at: Span,
    routine: &Option<Shared<Routine>>,
) -> Result<JudgedArguments, Memory>
    ensures part { IfOk result (λ r. r ≡ arguments_of (list_arguments context.old.scope context.old.known at (formals_in routine.now) all.now)) }
    ensures context { OnOk result (context.new ≡ moved context.old (list_arguments context.old.scope context.old.known at (formals_in routine.now) all.now).known) }
{
    let mut done = JudgedArguments {
        typed: true,
        trees: Items::new(alloc),
        weight: 0,
        fault: None,
    };
    let mut number: usize = 0;
    for one in all {
        argument(
            alloc,
            context,
            one,
            at,
            formal_at(routine, number),
            &mut done,
        )?;
        number = next(number)?;
    }
    Ok(done)
}

/// One argument more, for a formal.
#[cycle(judge)]
fn argument(
    alloc: Global,
    context: &mut Context,
    one: &Expr,
    at: Span,
    formal: Option<&Formal>,
    done: &mut JudgedArguments,
) -> Result<(), Memory>
    ensures scope { OnOk result (context.new.scope ≡ context.old.scope) }
    ensures stops { OnOk result (stopped done.old.weight ≡ done.old.weight → stopped done.new.weight ≡ done.new.weight) }
    ensures rest { OnOk result ((formals : List TypedFormal) (rest : List WrittenExpr) → option_copied formal.entry ≡ first_of formals → given done.new (list_arguments context.new.scope context.new.known at (rest_of formals) rest) ≡ given done.old (list_arguments context.old.scope context.old.known at formals (one.now ∷ rest))) }
{
    match one {
        Expr::Place(place) => {
            let part = designator(alloc, context, place)?;
            more_arguments(done, placed(formal, part))?;
            Ok(())
        }
        _ => {
            let part = expr(alloc, context, one)?;
            more_arguments(done, valued(at, place_of(one), formal, part))?;
            Ok(())
        }
    }
}

/// A type as it is written, that does not stand directly behind a name.
#[cycle(judge)]
pub fn type_expr(alloc: Global, context: &mut Context, t: &TypeExpr) -> Result<JudgedType, Memory>
    ensures part { IfOk result (λ r. r ≡ type_part (type_found context.old.scope context.old.known Unnamed t.now)) }
    ensures context { OnOk result (context.new ≡ moved context.old (type_found context.old.scope context.old.known Unnamed t.now).known) }
{
    match t {
        TypeExpr::Known(name) => {
            let what = context.look(&name.name)?;
            let made = named_type(alloc, name.at, what)?;
            Ok(made)
        }
        TypeExpr::Truth(_) => Ok(JudgedType {
            of: Some(AnyType::Simple(Simple::Truth)),
            fault: None,
        }),
        TypeExpr::Range { low, high } => {
            let a = constant(alloc, context, low.get())?;
            let b = constant(alloc, context, high.get())?;
            Ok(range_made(place_of(low.get()), a, b))
        }
        TypeExpr::Listed { names, at } => {
            let made = enum_made(alloc, &mut context.known, *at, names.as_slice())?;
            Ok(made)
        }
        TypeExpr::Scalarset { size, at } => {
            let a = constant(alloc, context, size.get())?;
            let made = scalarset_made(&mut context.known, Naming::Unnamed, *at, a)?;
            Ok(made)
        }
        TypeExpr::Fields { fields: all, .. } => {
            let done = fields(alloc, context, all.as_slice())?;
            Ok(record_made(done))
        }
        TypeExpr::Array { index, item, .. } => {
            let a = type_expr(alloc, context, index.get())?;
            let a = simple_wanted(a, type_place_of(index.get()));
            let b = type_expr(alloc, context, item.get())?;
            let made = array_made(alloc, a, b)?;
            Ok(made)
        }
    }
}

/// Where a constant has to stand.
#[cycle(judge)]
pub fn constant(alloc: Global, context: &mut Context, e: &Expr) -> Result<JudgedNumber, Memory>
    ensures part { IfOk result (λ r. r ≡ number_part (number_found (is_constant context.old.scope context.old.known e.now) (place_of e.now) (found context.old.scope context.old.known e.now))) }
    ensures context { OnOk result (context.new ≡ moved context.old (found context.old.scope context.old.known e.now).known) }
{
    let written = is_constant(context, e)?;
    let part = expr(alloc, context, e)?;
    Ok(number_made(written, place_of(e), &part))
}

/// The fields of a record.
#[cycle(judge)]
fn fields(alloc: Global, context: &mut Context, all: &[FieldDecl]) -> Result<JudgedFields, Memory>
    ensures part { IfOk result (λ r. r ≡ fields_part (list_fields context.old.scope context.old.known all.now)) }
    ensures context { OnOk result (context.new ≡ moved context.old (list_fields context.old.scope context.old.known all.now).known) }
{
    let mut done = JudgedFields {
        fields: Some(Items::new(alloc)),
        fault: None,
    };
    for one in all {
        done = field(alloc, context, one, done)?;
    }
    Ok(done)
}

/// The fields of one type more.
#[cycle(judge)]
fn field(
    alloc: Global,
    context: &mut Context,
    one: &FieldDecl,
    done: JudgedFields,
) -> Result<JudgedFields, Memory>
    ensures scope { OnOk result (context.new.scope ≡ context.old.scope) }
    ensures rest { IfOk result (λ r. (rest : List WrittenField) → fielded r (list_fields context.new.scope context.new.known rest) ≡ fielded done (list_fields context.old.scope context.old.known (one.now ∷ rest))) }
{
    let part = type_expr(alloc, context, &one.body)?;
    let made = more_fields(alloc, one.names.as_slice(), part, done)?;
    Ok(made)
}
