//! Declarations: each name is declared from the end of its declaration on.
#![tactic(auto, using(crate::proofs::DeclareEquations::declares))]

ghost use Rattle.std.specs.Prelude.{◌≡◌, OnOk, IfOk};
ghost use Rattle.murphi_types.specs.Declarations.{constant_meaning, type_meaning, naming_of};
ghost use Rattle.murphi_types.specs.Typing.{type_found};
ghost use Rattle.type_parts.specs.Contexts.{moved};
ghost use Rattle.type_forms.specs.Writing.{named_as};
ghost use Rattle.type_expressions.specs.PartsGiven.{type_part};
ghost use Rattle.type_declarations.specs.Declaring.{named, constant_with, type_with, next_root, with_variable, variable_with, variables_with, limit_of, names_with, is_node, declared_with, declaring};
ghost use Rattle.murphi_types.specs.Declarations.{Declared, declared};

use crate::leaves::leaves;
use crate::state::Declaring;
use murphi_ast::decl::Decl;
use murphi_ast::expr::{Expr, Named, TypeExpr};
use murphi_ast::text::{Memory, Text};
use murphi_typed::expr::Root;
use murphi_typed::protocol::Variable;
use murphi_typed::shared::Shared;
use murphi_typed::types::AnyType;
use murphi_types::fault::{Cause, Fault, Quantity};
use murphi_types::scope::{Entry, Meaning};
use std::alloc::Global;
use type_expressions::judge::{constant, type_expr};
use type_forms::written::{Naming, number_from, scalarset_made};
use type_parts::context::Context;
use type_parts::faults::{sooner, unless};
use type_parts::judged::JudgedType;
use type_parts::types::copy_type;
use type_parts::weights::plus;

/// The cells of the variables that are counted together are limited.
const MOST_LEAVES: u64 = 4000;

/// One more name, for the whole text or in the innermost scope.
pub fn declare_name(
    alloc: Global,
    globally: bool,
    name: &Text,
    what: Meaning,
    done: &mut Declaring,
) -> Result<(), Memory>
    ensures { OnOk result (done.new ≡ named globally name.now what done.old) }
{
    let name = name.copy(alloc)?;
    if globally {
        done.context.known.names.push(alloc, Entry { name, what })?;
        return Ok(());
    }
    done.context.scope.inner.push(Entry { name, what })?;
    Ok(())
}

fn constant_meaning(number: Option<i16>) -> Meaning
    ensures { result ≡ constant_meaning number }
{
    match number {
        Some(number) => Meaning::Constant(number),
        None => Meaning::Refused,
    }
}

fn declare_constant(
    alloc: Global,
    globally: bool,
    name: &Named,
    value: &Expr,
    done: &mut Declaring,
) -> Result<(), Memory>
    ensures { OnOk result (done.new ≡ constant_with globally name.now.name value.now done.old) }
{
    let number = constant(alloc, &mut done.context, value)?;
    done.fault = sooner(done.fault, number.fault);
    declare_name(
        alloc,
        globally,
        &name.name,
        constant_meaning(number.number),
        done,
    )?;
    Ok(())
}

fn type_meaning(alloc: Global, of: Option<AnyType>) -> Result<Meaning, Memory>
    ensures { IfOk result (λ m. m ≡ type_meaning of) }
{
    match of {
        Some(of) => {
            let of = Shared::new(alloc, of)?;
            Ok(Meaning::TypeName(of))
        }
        None => Ok(Meaning::Refused),
    }
}

/// How a scalarset is declared that stands directly behind a name.
fn naming_of(
    alloc: Global,
    globally: bool,
    node: &Option<Text>,
    name: &Text,
) -> Result<Naming, Memory>
    ensures { IfOk result (λ n. named_as n ≡ naming_of globally node.now name.now) }
{
    if globally {
        if is_node(node, name) {
            return Ok(Naming::AsNodes);
        }
    }
    let name = name.copy(alloc)?;
    Ok(Naming::As(name))
}

fn is_node(node: &Option<Text>, name: &Text) -> bool
    ensures { result ≡ is_node node.now name.now }
{
    match node {
        Some(node) => node.bytes() == name.bytes(),
        None => false,
    }
}

/// A type that stands directly behind a name.
fn named_type(
    alloc: Global,
    context: &mut Context,
    naming: Naming,
    t: &TypeExpr,
) -> Result<JudgedType, Memory>
    ensures part { IfOk result (λ r. r ≡ type_part (type_found context.old.scope context.old.known (named_as naming) t.now)) }
    ensures context { OnOk result (context.new ≡ moved context.old (type_found context.old.scope context.old.known (named_as naming) t.now).known) }
{
    match t {
        TypeExpr::Scalarset { size, at } => {
            let number = constant(alloc, context, size.get())?;
            let made = scalarset_made(&mut context.known, naming, *at, number)?;
            Ok(made)
        }
        TypeExpr::Known(_) => {
            let made = type_expr(alloc, context, t)?;
            Ok(made)
        }
        TypeExpr::Truth(_) => {
            let made = type_expr(alloc, context, t)?;
            Ok(made)
        }
        TypeExpr::Range { .. } => {
            let made = type_expr(alloc, context, t)?;
            Ok(made)
        }
        TypeExpr::Listed { .. } => {
            let made = type_expr(alloc, context, t)?;
            Ok(made)
        }
        TypeExpr::Fields { .. } => {
            let made = type_expr(alloc, context, t)?;
            Ok(made)
        }
        TypeExpr::Array { .. } => {
            let made = type_expr(alloc, context, t)?;
            Ok(made)
        }
    }
}

fn declare_type(
    alloc: Global,
    globally: bool,
    name: &Named,
    body: &TypeExpr,
    done: &mut Declaring,
) -> Result<(), Memory>
    ensures { OnOk result (done.new ≡ type_with globally name.now.name body.now done.old) }
{
    let naming = naming_of(alloc, globally, &done.context.scope.node, &name.name)?;
    let made = named_type(alloc, &mut done.context, naming, body)?;
    done.fault = sooner(done.fault, made.fault);
    let what = type_meaning(alloc, made.of)?;
    declare_name(alloc, globally, &name.name, what, done)?;
    Ok(())
}

/// What the next variable is named by.
fn next_root(globally: bool, done: &Declaring) -> Result<Root, Memory>
    ensures { IfOk result (λ r. r ≡ next_root globally done.now) }
{
    if globally {
        let number = number_from(done.context.known.globals.len())?;
        return Ok(Root::Global(number));
    }
    let number = number_from(done.locals.len())?;
    Ok(Root::Local(number))
}

/// One more variable.
fn add_variable(globally: bool, one: Variable, done: &mut Declaring) -> Result<(), Memory>
    ensures { OnOk result (done.new ≡ with_variable globally one done.old) }
{
    let more = leaves(&one.of);
    done.leaves = plus(done.leaves, more);
    if globally {
        done.context.known.globals.push(one)?;
        return Ok(());
    }
    done.locals.push(one)?;
    Ok(())
}

fn declare_variable(
    alloc: Global,
    globally: bool,
    name: &Text,
    of: &Option<Shared<AnyType>>,
    done: &mut Declaring,
) -> Result<(), Memory>
    ensures { OnOk result (done.new ≡ variable_with globally name.now of.now done.old) }
{
    match of {
        None => {
            declare_name(alloc, globally, name, Meaning::Refused, done)?;
            Ok(())
        }
        Some(shared) => {
            let root = next_root(globally, done)?;
            let of = copy_type(alloc, shared.get())?;
            let copied = name.copy(alloc)?;
            add_variable(globally, Variable { name: copied, of }, done)?;
            let of = shared.share()?;
            declare_name(alloc, globally, name, Meaning::Variable { root, of }, done)?;
            Ok(())
        }
    }
}

fn declare_names(
    alloc: Global,
    globally: bool,
    names: &[Named],
    of: &Option<Shared<AnyType>>,
    done: &mut Declaring,
) -> Result<(), Memory>
    ensures { OnOk result (done.new ≡ variables_with globally names.now of.now done.old) }
{
    for one in names {
        declare_variable(alloc, globally, &one.name, of, done)?;
    }
    Ok(())
}

/// The limit that so many leaves pass, at the first of these names.
fn limit_of(names: &[Named], count: u64) -> Option<Fault>
    ensures { result ≡ limit_of names.now count }
{
    match names {
        [] => None,
        [first, ..] => unless(
            count <= MOST_LEAVES,
            Cause::E16 {
                quantity: Quantity::Leaves,
                count,
                limit: MOST_LEAVES,
            },
            first.at,
        ),
    }
}

fn shared(alloc: Global, of: Option<AnyType>) -> Result<Option<Shared<AnyType>>, Memory>
    ensures { IfOk result (λ s. s ≡ of) }
{
    match of {
        Some(of) => {
            let of = Shared::new(alloc, of)?;
            Ok(Some(of))
        }
        None => Ok(None),
    }
}

fn declare_variables(
    alloc: Global,
    globally: bool,
    names: &[Named],
    body: &TypeExpr,
    done: &mut Declaring,
) -> Result<(), Memory>
    ensures { OnOk result (done.new ≡ names_with globally names.now body.now done.old) }
{
    let made = type_expr(alloc, &mut done.context, body)?;
    done.fault = sooner(done.fault, made.fault);
    let of = shared(alloc, made.of)?;
    declare_names(alloc, globally, names, &of, done)?;
    done.limit = sooner(done.limit, limit_of(names, done.leaves));
    Ok(())
}

fn declare_one(
    alloc: Global,
    globally: bool,
    one: &Decl,
    done: &mut Declaring,
) -> Result<(), Memory>
    ensures { OnOk result (done.new ≡ declared_with globally one.now done.old) }
{
    match one {
        Decl::Constant { name, value } => {
            declare_constant(alloc, globally, name, value, done)?;
            Ok(())
        }
        Decl::TypeName { name, body } => {
            declare_type(alloc, globally, name, body, done)?;
            Ok(())
        }
        Decl::Variables { names, body } => {
            declare_variables(alloc, globally, names.as_slice(), body, done)?;
            Ok(())
        }
        Decl::Routine(_) => Ok(()),
    }
}

/// A declaration of a constant, a type or variables, of the whole text or in the innermost scope. Routines are
/// declared elsewhere.
pub fn declare(
    alloc: Global,
    globally: bool,
    one: &Decl,
    done: &mut Declaring,
) -> Result<(), Memory>
    ensures { OnOk result ((d : Declared) → done.old ≡ declaring globally d → done.new ≡ declaring globally (declared globally one.now d)) }
{
    declare_one(alloc, globally, one, done)?;
    Ok(())
}
