//! The parameters of rulesets, in scope inside them.
#![tactic(auto, using(crate::proofs::RulesetLemmas::rulesets))]

ghost use Rattle.std.specs.Prelude.{◌≡◌, IfOk, OnOk};
ghost use Rattle.murphi_types.specs.Items.{with_parameter};
ghost use Rattle.type_items.specs.Rulesets.{bind_with, list_binds, is_bound, is_hidden, seen, mark_of, cut};

use crate::gathered::Inside;
use crate::lists::shorten;
use murphi_ast::expr::Bind;
use murphi_ast::text::{Memory, Text};
use murphi_typed::protocol::Parameter;
use murphi_typed::types::Simple;
use sqlite_items::Items;
use std::alloc::Global;
use type_expressions::judge::type_expr;
use type_forms::written::simple_wanted;
use type_parts::faults::sooner;
use type_parts::fitting::simple_part;
use type_parts::places::type_place_of;

/// How much is in scope: the names of the inner scopes, the bound variables, the parameters.
#[derive(Clone, Copy)]
pub struct Mark {
    pub entries: usize,
    pub bound: u32,
    pub params: usize,
}

/// One parameter more, unless it is ill-typed.
fn add_parameter(
    alloc: Global,
    params: &mut Items<Parameter>,
    name: &Text,
    over: Option<Simple>,
) -> Result<(), Memory>
    ensures { OnOk result (params.new ≡ with_parameter name.now over params.old) }
{
    match over {
        None => Ok(()),
        Some(over) => {
            let name = name.copy(alloc)?;
            params.push(Parameter { name, over })?;
            Ok(())
        }
    }
}

/// A bound name, seen from the end of its bind on.
fn bind(alloc: Global, inside: Inside, one: &Bind) -> Result<Inside, Memory>
    ensures { IfOk result (λ i. i ≡ bind_with one.now inside) }
{
    let Inside {
        context,
        params,
        fault,
    } = inside;
    let mut context = context;
    let mut params = params;
    let over = type_expr(alloc, &mut context, &one.over)?;
    let over = simple_wanted(over, type_place_of(&one.over));
    let simple = simple_part(&over.of);
    context.enter(alloc, &one.name.name, simple)?;
    add_parameter(alloc, &mut params, &one.name.name, simple)?;
    let fault = sooner(fault, over.fault);
    Ok(Inside {
        context,
        params,
        fault,
    })
}

/// Inside a ruleset with these parameters.
pub fn enter(alloc: Global, inside: Inside, binds: &[Bind]) -> Result<Inside, Memory>
    ensures { IfOk result (λ i. i ≡ list_binds binds.now inside) }
{
    let mut inside = inside;
    for one in binds {
        inside = bind(alloc, inside, one)?;
    }
    Ok(inside)
}

/// How much is in scope.
pub fn mark_of(inside: &Inside) -> Mark
    ensures { result ≡ mark_of inside.now }
{
    Mark {
        entries: inside.context.scope.inner.len(),
        bound: inside.context.scope.bound,
        params: inside.params.len(),
    }
}

/// After a ruleset: what is in scope is what was before it.
pub fn leave(inside: Inside, mark: Mark) -> Inside
    ensures { result ≡ cut mark inside }
{
    let Inside {
        context,
        params,
        fault,
    } = inside;
    let mut context = context;
    let mut params = params;
    shorten(&mut context.scope.inner, mark.entries);
    context.scope.bound = mark.bound;
    shorten(&mut params, mark.params);
    Inside {
        context,
        params,
        fault,
    }
}

fn is_bound(binds: &[Bind], name: &Text) -> bool
    ensures { result ≡ is_bound binds.now name.now }
{
    for one in binds {
        if one.name.name.bytes() == name.bytes() {
            return true;
        }
    }
    false
}

fn is_hidden(binds: &[Bind], size: &Option<Text>) -> bool
    ensures { result ≡ is_hidden binds.now size.now }
{
    match size {
        None => false,
        Some(name) => is_bound(binds, name),
    }
}

/// A name of the text, where no parameter of a ruleset hides it, and else the other.
pub fn seen<'a>(binds: &[Bind], size: &'a Option<Text>, none: &'a Option<Text>) -> &'a Option<Text>
    ensures { result.now ≡ seen binds.now size.now none.now }
{
    if is_hidden(binds, size) { none } else { size }
}
