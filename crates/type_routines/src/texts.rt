//! All declarations of a text.
#![tactic(auto, using(crate::proofs::TextLemmas::texts))]

ghost use Rattle.std.specs.Prelude.{true, ◌≡◌, ◌++◌, IfOk, OnOk};
ghost use Rattle.std.specs.List.{flat_map};
ghost use Rattle.murphi_types.specs.Declarations.{Declared, declared};
ghost use Rattle.murphi_types.specs.Routines.{globally_declared, text_declared};
ghost use Rattle.murphi_types.specs.Texts.{routine_name, declarations_of};
ghost use Rattle.type_declarations.specs.Declaring.{declaring};
ghost use Rattle.type_routines.specs.Routines.{text_begun};

use crate::routines::routine;
use murphi_ast::decl::Decl;
use murphi_ast::rule::Protocol;
use murphi_ast::text::{Memory, Text};
use murphi_types::names::Names;
use murphi_types::scope::{Known, Scope};
use sqlite_items::Items;
use std::alloc::Global;
use type_declarations::declare::declare;
use type_declarations::state::Declaring;
use type_parts::context::Context;

/// The name of a declaration that is a routine, after others.
fn add_name(alloc: Global, one: &Decl, out: &mut Items<Text>) -> Result<(), Memory>
    ensures { OnOk result (out.new ≡ out.old ++ routine_name one.now) }
{
    match one {
        Decl::Routine(routine) => {
            let name = routine.name.name.copy(alloc)?;
            out.push(name)?;
            Ok(())
        }
        Decl::Constant { .. } => Ok(()),
        Decl::TypeName { .. } => Ok(()),
        Decl::Variables { .. } => Ok(()),
    }
}

/// The names of all routines of a text.
pub fn routine_names(alloc: Global, all: &[Decl]) -> Result<Items<Text>, Memory>
    ensures { IfOk result (λ out. out ≡ flat_map routine_name all.now) }
{
    let mut out = Items::new(alloc);
    for one in all {
        add_name(alloc, one, &mut out)?;
    }
    Ok(out)
}

/// A constant, a type or variables of a text.
fn declare_other(alloc: Global, one: &Decl, done: Declaring) -> Result<Declaring, Memory>
    ensures { IfOk result (λ r. (d : Declared) → done ≡ declaring true d → r ≡ declaring true (declared true one.now d)) }
{
    let mut done = done;
    declare(alloc, true, one, &mut done)?;
    Ok(done)
}

/// One declaration of a text.
fn declare_globally(alloc: Global, one: &Decl, done: Declaring) -> Result<Declaring, Memory>
    ensures { IfOk result (λ r. (d : Declared) → done ≡ declaring true d → r ≡ declaring true (globally_declared one.now d)) }
{
    match one {
        Decl::Routine(one) => {
            let done = routine(alloc, one, done)?;
            Ok(done)
        }
        Decl::Constant { .. } => {
            let done = declare_other(alloc, one, done)?;
            Ok(done)
        }
        Decl::TypeName { .. } => {
            let done = declare_other(alloc, one, done)?;
            Ok(done)
        }
        Decl::Variables { .. } => {
            let done = declare_other(alloc, one, done)?;
            Ok(done)
        }
    }
}

fn declare_all(alloc: Global, all: &[Decl], start: Declaring) -> Result<Declaring, Memory>
    ensures { IfOk result (λ r. (d : Declared) → start ≡ declaring true d → r ≡ declaring true (text_declared all.now d)) }
{
    let mut done = start;
    for one in all {
        done = declare_globally(alloc, one, done)?;
    }
    Ok(done)
}

/// Where the declarations of a text begin.
fn begun(alloc: Global, node: Option<Text>, routines: Items<Text>) -> Declaring
    ensures { result ≡ text_begun node routines }
{
    let scope = Scope {
        inner: Items::new(alloc),
        bound: 0,
        in_function: false,
        routines,
        node,
    };
    let known = Known {
        names: Names::new(alloc),
        kinds: Items::new(alloc),
        globals: Items::new(alloc),
        routines: Items::new(alloc),
        weights: Items::new(alloc),
    };
    Declaring {
        context: Context { scope, known },
        locals: Items::new(alloc),
        leaves: 0,
        fault: None,
        limit: None,
    }
}

/// All declarations of a text, where the node type has this name, if one is given.
pub fn declarations(alloc: Global, node: Option<Text>, tree: &Protocol) -> Result<Declaring, Memory>
    ensures { IfOk result (λ r. r ≡ declaring true (declarations_of node tree.now)) }
{
    let all = tree.decls.as_slice();
    let routines = routine_names(alloc, all)?;
    let start = begun(alloc, node, routines);
    let done = declare_all(alloc, all, start)?;
    Ok(done)
}
