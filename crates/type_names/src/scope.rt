//! The names of one scope.
#![tactic(auto, using(crate::proofs::ScopeLemmas::scopes))]

ghost use Rattle.std.specs.Prelude.{◌≡◌, is_some, IfOk};
ghost use Rattle.murphi_types.specs.Scopes.{earliest};
ghost use Rattle.type_names.specs.Scoping.{no_names, declared_in, all_declared, fields_declared};

use murphi_ast::expr::{FieldDecl, Named};
use murphi_ast::text::{Memory, Text};
use murphi_types::fault::{Cause, Fault};
use murphi_types::names::Names;
use murphi_types::scope::{Entry, Meaning};
use std::alloc::Global;
use type_parts::faults::{sooner, unless};

/// The names of one scope, in text order, each found by hash; and E06 at the first that was there before it
/// was declared.
#[derive(Drop)]
pub struct Scoped {
    pub names: Names,
    pub fault: Option<Fault>,
}

/// A scope without names.
pub fn no_names(alloc: Global) -> Scoped
    ensures { result ≡ no_names }
{
    Scoped {
        names: Names::new(alloc),
        fault: None,
    }
}

fn is_there(names: &Names, name: &Text) -> Result<bool, Memory>
    ensures { IfOk result (λ b. b ≡ is_some (earliest names.now name.now)) }
{
    let found = names.look(name)?;
    match found {
        None => Ok(false),
        Some(_) => Ok(true),
    }
}

/// One name more.
pub fn declare(one: &Named, alloc: Global, so_far: Scoped) -> Result<Scoped, Memory>
    ensures { IfOk result (λ d. d ≡ declared_in so_far one.now) }
{
    let Scoped { names, fault } = so_far;
    let mut names = names;
    let there = is_there(&names, &one.name)?;
    let name = one.name.copy(alloc)?;
    names.push(
        alloc,
        Entry {
            name,
            what: Meaning::Refused,
        },
    )?;
    let fault = sooner(fault, unless(!there, Cause::E06, one.at));
    Ok(Scoped { names, fault })
}

/// Names in text order.
pub fn declare_all(all: &[Named], alloc: Global, so_far: Scoped) -> Result<Scoped, Memory>
    ensures { IfOk result (λ d. d ≡ all_declared so_far all.now) }
{
    let mut scope = so_far;
    for one in all {
        scope = declare(one, alloc, scope)?;
    }
    Ok(scope)
}

/// The names of the fields of a record.
pub fn declare_fields(all: &[FieldDecl], alloc: Global, so_far: Scoped) -> Result<Scoped, Memory>
    ensures { IfOk result (λ d. d ≡ fields_declared so_far all.now) }
{
    let mut scope = so_far;
    for one in all {
        scope = declare_all(one.names.as_slice(), alloc, scope)?;
    }
    Ok(scope)
}
