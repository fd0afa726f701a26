//! Formals and results. Formals are numbered together, and each is in the scope of its routine.
#![tactic(auto, using(crate::proofs::FormalLemmas::formals))]

ghost use Rattle.std.specs.Prelude.{◌≡◌, not, ◌&&◌, is_some, IfOk, OnOk};
ghost use Rattle.murphi_types.specs.Routines.{FoundFormals, formal_root, formals_found, no_formals, result_found};
ghost use Rattle.type_parts.specs.Contexts.{moved};
ghost use Rattle.type_routines.specs.Formals.{formal_with, formals_with, var_fault, group_with, groups_with, formals_left, result_part};

use crate::state::{JudgedFormals, JudgedResult};
use murphi_ast::decl::Formal as WrittenFormal;
use murphi_ast::expr::{Named, TypeExpr};
use murphi_ast::text::{Memory, Text};
use murphi_typed::expr::Root;
use murphi_typed::protocol::Formal;
use murphi_typed::shared::Shared;
use murphi_typed::types::AnyType;
use murphi_types::fault::{Cause, Fault};
use murphi_types::scope::{Entry, Meaning};
use sqlite_items::Items;
use std::alloc::Global;
use type_expressions::judge::type_expr;
use type_forms::written::{number_from, simple_wanted};
use type_parts::context::Context;
use type_parts::faults::{sooner, unless};
use type_parts::fitting::simple_part;
use type_parts::places::type_place_of;
use type_parts::types::copy_type;

/// What a formal is named by.
fn formal_root(by_place: bool, number: u32) -> Root
    ensures { result ≡ formal_root by_place number }
{
    if by_place {
        Root::Place(number)
    } else {
        Root::Formal(number)
    }
}

/// One formal more.
fn add_formal(
    alloc: Global,
    by_place: bool,
    name: &Text,
    of: &Option<Shared<AnyType>>,
    done: &mut JudgedFormals,
) -> Result<(), Memory>
    ensures { OnOk result (done.new ≡ formal_with by_place of.now name.now done.old) }
{
    match of {
        None => {
            let name = name.copy(alloc)?;
            let what = Meaning::Refused;
            done.context.scope.inner.push(Entry { name, what })?;
            Ok(())
        }
        Some(shared) => {
            let number = number_from(done.formals.len())?;
            let root = formal_root(by_place, number);
            let of = copy_type(alloc, shared.get())?;
            let copied = name.copy(alloc)?;
            done.formals.push(Formal {
                name: copied,
                by_place,
                of,
            })?;
            let name = name.copy(alloc)?;
            let of = shared.share()?;
            let what = Meaning::Variable { root, of };
            done.context.scope.inner.push(Entry { name, what })?;
            Ok(())
        }
    }
}

fn add_formals(
    alloc: Global,
    by_place: bool,
    names: &[Named],
    of: &Option<Shared<AnyType>>,
    done: &mut JudgedFormals,
) -> Result<(), Memory>
    ensures { OnOk result (done.new ≡ formals_with by_place of.now names.now done.old) }
{
    for one in names {
        add_formal(alloc, by_place, &one.name, of, done)?;
    }
    Ok(())
}

/// Whether formals may stand there: a function has no `var` formals.
fn may_stand(in_function: bool, by_place: bool) -> bool
    ensures { result ≡ not (in_function && by_place) }
{
    if in_function { !by_place } else { true }
}

/// The fault of formals that may not stand there, at the first of these names.
fn var_fault(in_function: bool, by_place: bool, names: &[Named]) -> Option<Fault>
    ensures { result ≡ var_fault in_function by_place names.now }
{
    match names {
        [] => None,
        [first, ..] => unless(may_stand(in_function, by_place), Cause::E10, first.at),
    }
}

fn shared(alloc: Global, of: Option<AnyType>) -> Result<Option<Shared<AnyType>>, Memory>
    ensures { IfOk result (λ s. s ≡ of) }
{
    match of {
        Some(of) => {
            let of = Shared::new(alloc, of)?;
            Ok(Some(of))
        }
        None => Ok(None),
    }
}

/// The formals of one type.
fn add_group(alloc: Global, one: &WrittenFormal, done: &mut JudgedFormals) -> Result<(), Memory>
    ensures { OnOk result (done.new ≡ group_with one.now done.old) }
{
    let names = one.names.as_slice();
    let own = var_fault(done.context.scope.in_function, one.by_place, names);
    let part = type_expr(alloc, &mut done.context, &one.body)?;
    done.fault = sooner(done.fault, sooner(own, part.fault));
    let of = shared(alloc, part.of)?;
    add_formals(alloc, one.by_place, names, &of, done)?;
    Ok(())
}

fn add_groups(alloc: Global, all: &[WrittenFormal], done: &mut JudgedFormals) -> Result<(), Memory>
    ensures { OnOk result (done.new ≡ groups_with all.now done.old) }
{
    for one in all {
        add_group(alloc, one, done)?;
    }
    Ok(())
}

/// The formals of a routine. Its scope is that of the text around it.
pub fn formals(
    alloc: Global,
    context: Context,
    is_function: bool,
    all: &[WrittenFormal],
) -> Result<JudgedFormals, Memory>
    ensures { IfOk result (λ r. r ≡ formals_left (formals_found all.now (no_formals context.scope is_function context.known))) }
{
    let mut context = context;
    context.scope.in_function = is_function;
    let mut done = JudgedFormals {
        context,
        formals: Items::new(alloc),
        fault: None,
    };
    add_groups(alloc, all, &mut done)?;
    Ok(done)
}

/// The result of a routine, which is a function where it has one.
pub fn result_type(
    alloc: Global,
    context: &mut Context,
    of: &Option<TypeExpr>,
) -> Result<JudgedResult, Memory>
    ensures part { IfOk result (λ r. r ≡ result_part (result_found context.old.scope context.old.known of.now)) }
    ensures context { OnOk result (context.new ≡ moved context.old (result_found context.old.scope context.old.known of.now).known) }
{
    match of {
        None => Ok(JudgedResult {
            of: None,
            fault: None,
        }),
        Some(of) => {
            let part = type_expr(alloc, context, of)?;
            let part = simple_wanted(part, type_place_of(of));
            Ok(JudgedResult {
                of: simple_part(&part.of),
                fault: part.fault,
            })
        }
    }
}
