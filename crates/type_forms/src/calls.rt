//! Calls: the routine that is called, and what its formals are given.

ghost use Rattle.std.specs.Prelude.{◌≡◌, None, option_map, slice_get, unwrap_or, if◌then◌else◌, IfOk, OnOk};
ghost use Rattle.murphi_typed.specs.declared.types.AnyType.{Simple};
ghost use Rattle.murphi_typed.specs.WellTyped.{widened};
ghost use Rattle.murphi_types.specs.declared.fault.Cause.TheVariants.{E05, E10};
ghost use Rattle.std.specs.Option.{option_copied};
ghost use Rattle.murphi_types.specs.Faults.{first_fault};
ghost use Rattle.murphi_types.specs.Fitting.{fits};
ghost use Rattle.murphi_types.specs.Calls.{callee_of, value_faults, count_fits, is_function, value_fits, is_simple_formal, result_of};
ghost use Rattle.type_forms.specs.Calling.{formals_in, judged_callee, numbered_callee, argument_judged, known, is_known, place_fits, may_write, copied_fits, copy_of, handed_of, copied, handed, placed, own_value, valued, argued, call_judged};

use crate::designators::designator;
use murphi_ast::expr::Named;
use murphi_ast::text::Memory;
use murphi_ast::token::Span;
use murphi_typed::expr::{Argument, Arguments, Expr, Root, Selector};
use murphi_typed::protocol::{Formal, Routine};
use murphi_typed::shared::Shared;
use murphi_typed::types::AnyType;
use murphi_types::fault::{Cause, Fault};
use murphi_types::scope::Meaning;
use sqlite_items::{Items, at};
use term_core::value::Value;
use type_parts::context::Context;
use type_parts::faults::{sooner, unless};
use type_parts::fitting::{has_values_of, widened};
use type_parts::judged::{Judged, JudgedArguments, JudgedCallee, JudgedPlace, Start};
use type_parts::types::same_type;
use type_parts::weights::{one_more, plus};

/// An argument: what a formal is given. `typed` says that it is neither ill-typed nor has a fault.
#[derive(Drop)]
pub struct JudgedArgument {
    pub typed: bool,
    pub tree: Argument,
    pub weight: u64,
    pub fault: Option<Fault>,
}

fn no_callee(fault: Option<Fault>) -> JudgedCallee
    ensures { result ≡ record { number = 0; routine = None; weight = 0; fault = fault } }
{
    JudgedCallee {
        number: 0,
        routine: None,
        weight: 0,
        fault,
    }
}

/// The routine of a number, with the weight of its body.
fn numbered(context: &Context, number: u32) -> Result<JudgedCallee, Memory>
    ensures { IfOk result (λ c. c ≡ numbered_callee context.now.known number) }
{
    let routine = routine_at(context.known.routines.as_slice(), number as usize)?;
    Ok(JudgedCallee {
        number,
        routine,
        weight: weight_at(context.known.weights.as_slice(), number as usize),
        fault: None,
    })
}

fn routine_at(
    routines: &[Shared<Routine>],
    number: usize,
) -> Result<Option<Shared<Routine>>, Memory>
    ensures { IfOk result (λ r. r ≡ slice_get routines.now number) }
{
    if number < routines.len() {
        let routine = routines[number].share()?;
        return Ok(Some(routine));
    }
    Ok(None)
}

fn weight_at(weights: &[u64], number: usize) -> u64
    ensures { result ≡ unwrap_or (slice_get weights.now number) 0 }
{
    if number < weights.len() {
        return weights[number];
    }
    0
}

/// The routine that a name calls: E10 where it is declared only later, E05 where it is not declared, E07 where it
/// stands for something else.
pub fn callee(
    context: &Context,
    name: &Named,
    what: Option<Meaning>,
) -> Result<JudgedCallee, Memory>
    ensures { IfOk result (λ c. c ≡ judged_callee (callee_of context.now.scope context.now.known name.now what)) }
{
    match what {
        Some(Meaning::Routine(number)) => {
            let found = numbered(context, number)?;
            Ok(found)
        }
        Some(Meaning::Refused) => Ok(no_callee(None)),
        Some(_) => Ok(no_callee(Some(Fault {
            cause: Cause::E07,
            at: name.at,
        }))),
        None => Ok(no_callee(Some(Fault {
            cause: undeclared(context.is_routine_name(&name.name)),
            at: name.at,
        }))),
    }
}

fn undeclared(later: bool) -> Cause
    ensures { result ≡ (if later then E10 else E05) }
{
    if later { Cause::E10 } else { Cause::E05 }
}

/// The formal of a number of the routine that is called.
pub fn formal_at<'a>(routine: &'a Option<Shared<Routine>>, number: usize) -> Option<&'a Formal>
    ensures { option_copied result ≡ slice_get (formals_in routine.now) number }
{
    match routine {
        Some(routine) => at(routine.get().formals.as_slice(), number),
        None => None,
    }
}

fn is_function(routine: &Routine) -> bool
    ensures { result ≡ is_function routine.now }
{
    routine.result.is_some()
}

/// What is wrong with a routine as a value: a procedure is none, and a function calls no procedure.
fn value_fault(in_function: bool, at: Span, routine: &Option<Shared<Routine>>) -> Option<Fault>
    ensures { result ≡ first_fault (value_faults in_function at routine.now) }
{
    match routine {
        None => None,
        Some(routine) => {
            if is_function(routine.get()) {
                return None;
            }
            if in_function {
                Some(Fault {
                    cause: Cause::E10,
                    at,
                })
            } else {
                Some(Fault {
                    cause: Cause::E11,
                    at,
                })
            }
        }
    }
}

fn count_fits(routine: &Option<Shared<Routine>>, count: usize) -> bool
    ensures { result ≡ count_fits routine.now count }
{
    match routine {
        Some(routine) => routine.get().formals.len() == count,
        None => true,
    }
}

/// Whether a formal of this type takes values of another.
pub fn value_fits(formal: &AnyType, found: &AnyType) -> bool
    ensures { result ≡ value_fits formal.now found.now }
{
    match formal {
        AnyType::Simple(of) => has_values_of(*of, found),
        AnyType::Record { .. } => same_type(formal, found),
        AnyType::Array { .. } => same_type(formal, found),
    }
}

/// Whether a formal of this type takes a part by value.
pub fn fits_value(formal: &AnyType, found: &Option<AnyType>) -> bool
    ensures { result ≡ fits (value_fits formal.now) found.now }
{
    match found {
        None => true,
        Some(found) => value_fits(formal, found),
    }
}

/// Whether a `var` formal of this type takes a part.
fn fits_place(formal: &AnyType, start: &Start, found: &Option<AnyType>) -> bool
    ensures { result ≡ fits (place_fits formal.now start.now) found.now }
{
    match found {
        None => true,
        Some(found) => {
            if is_known(start) {
                value_fits(formal, found)
            } else {
                same_type(formal, found)
            }
        }
    }
}

fn is_known(start: &Start) -> bool
    ensures { result ≡ is_known start.now }
{
    match start {
        Start::Fixed(tree) => known(tree),
        _ => false,
    }
}

fn known(tree: &Expr) -> bool
    ensures { result ≡ known tree.now }
{
    match tree {
        Expr::Known(_) => true,
        _ => false,
    }
}

/// Whether what a designator starts with may be written.
pub fn may_write(start: &Start) -> bool
    ensures { result ≡ may_write start.now }
{
    match start {
        Start::Fixed(_) => false,
        Start::Rooted(Root::Formal(_)) => false,
        _ => true,
    }
}

fn is_simple_formal(formal: Option<&Formal>) -> bool
    ensures { result ≡ is_simple_formal (option_copied formal.entry) }
{
    match formal {
        None => true,
        Some(formal) => match &formal.of {
            AnyType::Simple(_) => true,
            _ => false,
        },
    }
}

fn copy_tree(simple: bool, start: Start, selectors: Items<Selector>, at: Span) -> Argument
    ensures { result ≡ copy_of simple start selectors at }
{
    match start {
        Start::Rooted(root) => {
            let place = designator(root, selectors, at);
            if simple {
                Argument::Copy(place)
            } else {
                Argument::CopyAll(place)
            }
        }
        Start::Fixed(tree) => Argument::Value(tree),
        Start::Nowhere => Argument::Value(Expr::Known(Value::Undefined)),
    }
}

fn place_tree(start: Start, selectors: Items<Selector>, at: Span) -> Argument
    ensures { result ≡ handed_of start selectors at }
{
    match start {
        Start::Rooted(root) => Argument::Place(designator(root, selectors, at)),
        Start::Fixed(tree) => Argument::Value(tree),
        Start::Nowhere => Argument::Value(Expr::Known(Value::Undefined)),
    }
}

fn argument(typed: bool, tree: Argument, weight: u64, fault: Option<Fault>) -> JudgedArgument
    ensures { result ≡ argument_judged typed tree weight fault }
{
    let typed = if typed { fault.is_none() } else { false };
    JudgedArgument {
        typed,
        tree,
        weight,
        fault,
    }
}

/// Whether a formal takes a designator by value.
fn copied_fits(formal: Option<&Formal>, found: &Option<AnyType>) -> bool
    ensures { result ≡ copied_fits (option_copied formal.entry) found.now }
{
    match formal {
        None => true,
        Some(formal) => fits_value(&formal.of, found),
    }
}

/// A designator that is handed over by value.
fn copied(formal: Option<&Formal>, part: JudgedPlace) -> JudgedArgument
    ensures { result ≡ copied (option_copied formal.entry) part }
{
    let fits = copied_fits(formal, &part.of);
    let fault = sooner(part.fault, unless(fits, Cause::E07, part.at));
    let tree = copy_tree(
        is_simple_formal(formal),
        part.start,
        part.selectors,
        part.at,
    );
    argument(part.of.is_some(), tree, part.weight, fault)
}

/// A designator that is handed to a `var` formal.
fn handed(formal: &Formal, part: JudgedPlace) -> JudgedArgument
    ensures { result ≡ handed formal.now part }
{
    let fits = fits_place(&formal.of, &part.start, &part.of);
    let own = sooner(
        unless(fits, Cause::E07, part.at),
        unless(may_write(&part.start), Cause::E14, part.at),
    );
    let fault = sooner(part.fault, own);
    let tree = place_tree(part.start, part.selectors, part.at);
    argument(part.of.is_some(), tree, part.weight, fault)
}

/// A designator as an argument.
pub fn placed(formal: Option<&Formal>, part: JudgedPlace) -> JudgedArgument
    ensures { result ≡ placed (option_copied formal.entry) part }
{
    match formal {
        None => copied(None, part),
        Some(one) => {
            if one.by_place {
                handed(one, part)
            } else {
                copied(Some(one), part)
            }
        }
    }
}

/// What is wrong with any other expression as an argument.
fn own_value(
    name: Span,
    at: Span,
    formal: Option<&Formal>,
    found: &Option<AnyType>,
) -> Option<Fault>
    ensures { result ≡ own_value name at (option_copied formal.entry) found.now }
{
    match formal {
        None => None,
        Some(formal) => {
            if formal.by_place {
                return Some(Fault {
                    cause: Cause::E11,
                    at: name,
                });
            }
            unless(fits_value(&formal.of, found), Cause::E07, at)
        }
    }
}

/// Any other expression as an argument, at this place, in the call at another.
pub fn valued(name: Span, at: Span, formal: Option<&Formal>, part: Judged) -> JudgedArgument
    ensures { result ≡ valued name at (option_copied formal.entry) part }
{
    let own = own_value(name, at, formal, &part.of);
    argument(
        part.of.is_some(),
        Argument::Value(part.tree),
        part.weight,
        sooner(part.fault, own),
    )
}

/// One argument more.
pub fn more_arguments(done: &mut JudgedArguments, one: JudgedArgument) -> Result<(), Memory>
    ensures { OnOk result (done.new ≡ argued done.old one) }
{
    let typed = if done.typed { one.typed } else { false };
    done.trees.push(one.tree)?;
    done.typed = typed;
    done.weight = plus(done.weight, one.weight);
    done.fault = sooner(done.fault, one.fault);
    Ok(())
}

fn result_type(routine: &Option<Shared<Routine>>) -> Option<AnyType>
    ensures { result ≡ option_map (λ type. Simple (widened type)) (result_of routine.now) }
{
    match routine {
        None => None,
        Some(routine) => match routine.get().result {
            Some(of) => Some(AnyType::Simple(widened(of))),
            None => None,
        },
    }
}

/// A call of a function as an expression.
pub fn call_made(
    in_function: bool,
    at: Span,
    callee: JudgedCallee,
    given: JudgedArguments,
) -> Judged
    ensures { result ≡ call_judged in_function at callee given }
{
    let counted = count_fits(&callee.routine, given.trees.len());
    let typed = if given.typed { counted } else { false };
    let own = sooner(
        value_fault(in_function, at, &callee.routine),
        sooner(unless(counted, Cause::E11, at), given.fault),
    );
    Judged {
        of: if typed {
            result_type(&callee.routine)
        } else {
            None
        },
        tree: Expr::Call {
            routine: callee.number,
            args: Arguments::Of(given.trees),
            at,
        },
        weight: one_more(plus(given.weight, callee.weight)),
        fault: sooner(callee.fault, own),
    }
}
