//! The walk over formals, locals and binds.
#![tactic(auto)]

ghost use Rattle.std.specs.Prelude.{◌≡◌, IfOk};
ghost use Rattle.murphi_types.specs.Written.{names_of};
ghost use Rattle.type_names.specs.Scoping.{all_declared};
ghost use Rattle.type_names.specs.Wholes.{hidden_after, of_simple, list_locals, hidden_in_locals, locals_declared, list_formals, hidden_in_formals, formals_declared, of_result, scope_of, list_binds, hidden_in_binds};

use crate::expressions::{walk, walk_type};
use crate::gathered::{Gathered, hidden_by};
use crate::scope::{Scoped, declare, declare_all, no_names};
use murphi_ast::decl::{Decl, Formal, Routine};
use murphi_ast::expr::{Bind, Named, TypeExpr};
use murphi_ast::text::{Memory, Text};
use std::alloc::Global;

/// Whether a name is hidden behind names that are declared.
fn hidden_after(all: &[Named], name: &Text, hidden: bool) -> bool
    ensures { result ≡ hidden_after name.now hidden all.now }
{
    let mut inside = hidden;
    for one in all {
        inside = hidden_by(inside, name, one);
    }
    inside
}

fn hidden_behind(one: &Decl, name: &Text, hidden: bool) -> bool
    ensures { result ≡ hidden_after name.now hidden (names_of one.now) }
{
    match one {
        Decl::Constant { name: own, .. } => hidden_by(hidden, name, own),
        Decl::TypeName { name: own, .. } => hidden_by(hidden, name, own),
        Decl::Variables { names, .. } => hidden_after(names.as_slice(), name, hidden),
        Decl::Routine(routine) => hidden_by(hidden, name, &routine.name),
    }
}

fn declare_decl(one: &Decl, alloc: Global, so_far: Scoped) -> Result<Scoped, Memory>
    ensures { IfOk result (λ d. d ≡ all_declared so_far (names_of one.now)) }
{
    match one {
        Decl::Constant { name, .. } => {
            let scope = declare(name, alloc, so_far)?;
            Ok(scope)
        }
        Decl::TypeName { name, .. } => {
            let scope = declare(name, alloc, so_far)?;
            Ok(scope)
        }
        Decl::Variables { names, .. } => {
            let scope = declare_all(names.as_slice(), alloc, so_far)?;
            Ok(scope)
        }
        Decl::Routine(routine) => {
            let scope = declare(&routine.name, alloc, so_far)?;
            Ok(scope)
        }
    }
}

fn walk_simple(
    one: &Decl,
    alloc: Global,
    name: &Text,
    hidden: bool,
    so_far: Gathered,
) -> Result<Gathered, Memory>
    ensures { IfOk result (λ g. g ≡ of_simple name.now hidden one.now so_far) }
{
    match one {
        Decl::Constant { value, .. } => {
            let g = walk(value, alloc, name, hidden, so_far)?;
            Ok(g)
        }
        Decl::TypeName { body, .. } => {
            let g = walk_type(body, alloc, name, hidden, so_far)?;
            Ok(g)
        }
        Decl::Variables { body, .. } => {
            let g = walk_type(body, alloc, name, hidden, so_far)?;
            Ok(g)
        }
        Decl::Routine(_) => Ok(so_far),
    }
}

/// Locals, each in scope from the end of its declaration on.
pub(crate) fn walk_locals(
    all: &[Decl],
    alloc: Global,
    name: &Text,
    hidden: bool,
    so_far: Gathered,
) -> Result<Gathered, Memory>
    ensures { IfOk result (λ g. g ≡ list_locals name.now hidden all.now so_far) }
{
    let mut g = so_far;
    let mut inside = hidden;
    for one in all {
        g = walk_simple(one, alloc, name, inside, g)?;
        inside = hidden_behind(one, name, inside);
    }
    Ok(g)
}

pub(crate) fn hidden_in_locals(all: &[Decl], name: &Text, hidden: bool) -> bool
    ensures { result ≡ hidden_in_locals name.now hidden all.now }
{
    let mut inside = hidden;
    for one in all {
        inside = hidden_behind(one, name, inside);
    }
    inside
}

pub(crate) fn declare_locals(all: &[Decl], alloc: Global, so_far: Scoped) -> Result<Scoped, Memory>
    ensures { IfOk result (λ d. d ≡ locals_declared so_far all.now) }
{
    let mut scope = so_far;
    for one in all {
        scope = declare_decl(one, alloc, scope)?;
    }
    Ok(scope)
}

pub(crate) fn walk_formals(
    all: &[Formal],
    alloc: Global,
    name: &Text,
    hidden: bool,
    so_far: Gathered,
) -> Result<Gathered, Memory>
    ensures { IfOk result (λ g. g ≡ list_formals name.now hidden all.now so_far) }
{
    let mut g = so_far;
    let mut inside = hidden;
    for one in all {
        g = walk_type(&one.body, alloc, name, inside, g)?;
        inside = hidden_after(one.names.as_slice(), name, inside);
    }
    Ok(g)
}

pub(crate) fn hidden_in_formals(all: &[Formal], name: &Text, hidden: bool) -> bool
    ensures { result ≡ hidden_in_formals name.now hidden all.now }
{
    let mut inside = hidden;
    for one in all {
        inside = hidden_after(one.names.as_slice(), name, inside);
    }
    inside
}

fn declare_formals(all: &[Formal], alloc: Global, so_far: Scoped) -> Result<Scoped, Memory>
    ensures { IfOk result (λ d. d ≡ formals_declared so_far all.now) }
{
    let mut scope = so_far;
    for one in all {
        scope = declare_all(one.names.as_slice(), alloc, scope)?;
    }
    Ok(scope)
}

pub(crate) fn walk_result(
    of: &Option<TypeExpr>,
    alloc: Global,
    name: &Text,
    hidden: bool,
    so_far: Gathered,
) -> Result<Gathered, Memory>
    ensures { IfOk result (λ g. g ≡ of_result name.now hidden of.now so_far) }
{
    match of {
        None => Ok(so_far),
        Some(of) => {
            let g = walk_type(of, alloc, name, hidden, so_far)?;
            Ok(g)
        }
    }
}

pub(crate) fn scope_of(one: &Routine, alloc: Global) -> Result<Scoped, Memory>
    ensures { IfOk result (λ d. d ≡ scope_of one.now) }
{
    let scope = declare_formals(one.formals.as_slice(), alloc, no_names(alloc))?;
    let scope = declare_locals(one.locals.as_slice(), alloc, scope)?;
    Ok(scope)
}

/// The binds of a ruleset, each in scope from its end on.
pub(crate) fn walk_binds(
    all: &[Bind],
    alloc: Global,
    name: &Text,
    hidden: bool,
    so_far: Gathered,
) -> Result<Gathered, Memory>
    ensures { IfOk result (λ g. g ≡ list_binds name.now hidden all.now so_far) }
{
    let mut g = so_far;
    let mut inside = hidden;
    for one in all {
        g = walk_type(&one.over, alloc, name, inside, g)?;
        inside = hidden_by(inside, name, &one.name);
    }
    Ok(g)
}

pub(crate) fn hidden_in_binds(all: &[Bind], name: &Text, hidden: bool) -> bool
    ensures { result ≡ hidden_in_binds name.now hidden all.now }
{
    let mut inside = hidden;
    for one in all {
        inside = hidden_by(inside, name, &one.name);
    }
    inside
}
