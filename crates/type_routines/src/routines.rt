//! Routines: formals, result, locals and body, in text order. A routine is declared from its end on.

ghost use Rattle.std.specs.Prelude.{true, false, ◌≡◌, ◌&&◌, take, is_none, IfOk, OnOk};
ghost use Rattle.murphi_ast.specs.declared.decl.Decl.TheVariants.{Routine as RoutineDecl};
ghost use Rattle.murphi_types.specs.Declarations.{Declared, all_declared};
ghost use Rattle.murphi_types.specs.Routines.{FoundFormals, routine_meaning, globally_declared};
ghost use Rattle.type_declarations.specs.Declaring.{declaring};
ghost use Rattle.type_statements.specs.Stating.{leaving_of};
ghost use Rattle.type_routines.specs.Formals.{formals_left};
ghost use Rattle.type_routines.specs.Routines.{locals_in, routine_in, routine_left, nothing_local, leaving_by, named_routine, with_body, finished, left_behind};

use crate::formals::{formals, result_type};
use crate::state::{JudgedFormals, JudgedRoutine};
use murphi_ast::decl::{Decl, Routine as WrittenRoutine};
use murphi_ast::text::{Memory, Text};
use murphi_typed::protocol::{Formal, Routine};
use murphi_typed::shared::Shared;
use murphi_typed::stmt::Stmt;
use murphi_typed::types::Simple;
use murphi_types::fault::Fault;
use murphi_types::scope::{Entry, Known, Meaning};
use sqlite_items::Items;
use std::alloc::Global;
use type_declarations::declare::declare;
use type_declarations::state::Declaring;
use type_forms::written::number_from;
use type_parts::context::Context;
use type_parts::faults::sooner;
use type_statements::judge::statements;
use type_statements::judged::Leaving;

/// Where the locals of a body begin.
fn begun(alloc: Global, context: Context, fault: Option<Fault>) -> Declaring
    ensures { result ≡ nothing_local context fault }
{
    Declaring {
        context,
        locals: Items::new(alloc),
        leaves: 0,
        fault,
        limit: None,
    }
}

/// The locals of a body.
pub fn declare_locals(alloc: Global, all: &[Decl], done: &mut Declaring) -> Result<(), Memory>
    ensures { OnOk result ((d : Declared) → done.old ≡ declaring false d → done.new ≡ declaring false (all_declared false all.now d)) }
{
    for one in all {
        declare(alloc, false, one, done)?;
    }
    Ok(())
}

/// How the body of a routine may be left: a function with a value of its result type.
fn leaving(is_function: bool, of: Option<Simple>) -> Leaving
    ensures { leaving_of result ≡ leaving_by is_function of }
{
    if is_function {
        Leaving::WithValue(of)
    } else {
        Leaving::ByReturn
    }
}

/// What the name of a routine stands for: one that has a fault is not called.
fn routine_meaning(typed: bool, number: u32) -> Meaning
    ensures { result ≡ routine_meaning typed number }
{
    if typed {
        Meaning::Routine(number)
    } else {
        Meaning::Refused
    }
}

/// Declares the name of the next routine.
fn name_routine(alloc: Global, known: &mut Known, typed: bool, name: &Text) -> Result<(), Memory>
    ensures { OnOk result (known.new ≡ named_routine typed name.now known.old) }
{
    let number = number_from(known.routines.len())?;
    let name = name.copy(alloc)?;
    let what = routine_meaning(typed, number);
    known.names.push(alloc, Entry { name, what })?;
    Ok(())
}

/// One routine more, with the weight of its body.
fn add_routine(alloc: Global, known: &mut Known, one: Routine, weight: u64) -> Result<(), Memory>
    ensures { OnOk result (known.new ≡ with_body one weight known.old) }
{
    let one = Shared::new(alloc, one)?;
    known.routines.push(one)?;
    known.weights.push(weight)?;
    Ok(())
}

/// Whether there is no fault.
fn are_none(a: Option<Fault>, b: Option<Fault>) -> bool
    ensures { result ≡ (is_none a && is_none b) }
{
    if a.is_none() { b.is_none() } else { false }
}

/// A routine after its locals: its body, and what the whole routine leaves.
fn finish(
    alloc: Global,
    one: &WrittenRoutine,
    formals: Items<Formal>,
    of: Option<Simple>,
    done: Declaring,
) -> Result<JudgedRoutine, Memory>
    ensures { IfOk result (λ r. r ≡ finished one.now formals of done) }
{
    let Declaring {
        context,
        locals,
        leaves: _,
        fault,
        limit,
    } = done;
    let mut context = context;
    let function = one.result.is_some();
    let leaving = leaving(function, of);
    let all = one.body.as_slice();
    let body = statements(alloc, &mut context, leaving, all)?;
    let typed = are_none(fault, body.fault);
    let rest = sooner(limit, body.fault);
    let fault = sooner(fault, rest);
    name_routine(alloc, &mut context.known, typed, &one.name.name)?;
    let name = one.name.name.copy(alloc)?;
    let made = Routine {
        name,
        formals,
        result: of,
        locals,
        body: Stmt::Block(body.trees),
    };
    add_routine(alloc, &mut context.known, made, body.weight)?;
    Ok(JudgedRoutine { context, fault })
}

/// A routine after its formals.
fn after_formals(
    alloc: Global,
    one: &WrittenRoutine,
    taken: JudgedFormals,
) -> Result<JudgedRoutine, Memory>
    ensures { IfOk result (λ r. (f : FoundFormals) → taken ≡ formals_left f → r ≡ routine_left (locals_in f one.now).scope (routine_in f one.now)) }
{
    let JudgedFormals {
        context,
        formals,
        fault,
    } = taken;
    let mut context = context;
    let part = result_type(alloc, &mut context, &one.result)?;
    let fault = sooner(fault, part.fault);
    let mut done = begun(alloc, context, fault);
    let all = one.locals.as_slice();
    declare_locals(alloc, all, &mut done)?;
    let made = finish(alloc, one, formals, part.of, done)?;
    Ok(made)
}

/// Takes all names but so many out of scope.
fn shorten(names: &mut Items<Entry>, count: usize)
    ensures { names.new ≡ take count names.old }
{
    let mut left = names.len();
    while left > count {
        left -= 1;
        let _gone = names.pop();
    }
}

/// Leaves a routine: the names in scope are those before it.
fn leave(context: &mut Context, names: usize, in_function: bool)
    ensures { context.new ≡ left_behind names in_function context.old }
{
    shorten(&mut context.scope.inner, names);
    context.scope.in_function = in_function;
}

/// A routine of a text.
pub fn routine(alloc: Global, one: &WrittenRoutine, done: Declaring) -> Result<Declaring, Memory>
    ensures { IfOk result (λ r. (d : Declared) → done ≡ declaring true d → r ≡ declaring true (globally_declared (RoutineDecl one.now) d)) }
{
    let Declaring {
        context,
        locals,
        leaves,
        fault,
        limit,
    } = done;
    let names = context.scope.inner.len();
    let in_function = context.scope.in_function;
    let function = one.result.is_some();
    let all = one.formals.as_slice();
    let taken = formals(alloc, context, function, all)?;
    let made = after_formals(alloc, one, taken)?;
    let fault = sooner(fault, made.fault);
    let mut context = made.context;
    leave(&mut context, names, in_function);
    Ok(Declaring {
        context,
        locals,
        leaves,
        fault,
        limit,
    })
}
