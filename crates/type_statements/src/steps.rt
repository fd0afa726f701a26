//! What each statement makes of its parts.

ghost use Rattle.std.specs.Prelude.{◌≡◌, not, ◌||◌, None, OnOk};
ghost use Rattle.murphi_types.specs.Faults.{first_fault};
ghost use Rattle.murphi_types.specs.Calls.{count_fits, is_function};
ghost use Rattle.murphi_types.specs.Fitting.{fits, is_simple};
ghost use Rattle.murphi_types.specs.Statements.{goes_into, simple_or, type_or, statement_faults, is_result};
ghost use Rattle.type_parts.specs.Judging.{kept};
ghost use Rattle.type_statements.specs.Stating.{one_judged, is_global, write_fault, target_of, copy_of, copied_judged, stored_judged, cleared_judged, undefined_judged, called_judged, asserted_judged, shown_judged, returned_judged, left_judged, if_judged, switch_judged, for_judged, stated_by, labelled_by, armed_by, cased_by};

use crate::judged::{JudgedArms, JudgedCases, JudgedLabels, JudgedStmt, JudgedStmts};
use murphi_ast::text::Memory;
use murphi_ast::token::Span;
use murphi_typed::expr::{Arguments, Designator, Expr, Root, Selector};
use murphi_typed::protocol::Routine;
use murphi_typed::shared::Shared;
use murphi_typed::stmt::{Arm, Case, Stmt};
use murphi_typed::types::{AnyType, Simple};
use murphi_types::fault::{Cause, Fault};
use sqlite_items::Items;
use term_core::value::Value;
use type_forms::calls::{fits_value, may_write};
use type_forms::designators::designator;
use type_forms::written::turns;
use type_parts::expressions::kept;
use type_parts::faults::{sooner, unless};
use type_parts::fitting::{fits_simple, fits_values_of, simple_part};
use type_parts::judged::{Judged, JudgedArguments, JudgedCallee, JudgedPlace, JudgedType, Start};
use type_parts::weights::{one_more, plus, times};

/// A statement, by the weight of what is directly in it.
pub fn one_statement(tree: Stmt, inside: u64, fault: Option<Fault>) -> JudgedStmt
    ensures { result ≡ one_judged tree inside fault }
{
    JudgedStmt {
        tree,
        weight: one_more(inside),
        fault,
    }
}

fn is_global(start: &Start) -> bool
    ensures { result ≡ is_global start.now }
{
    match start {
        Start::Rooted(Root::Global(_)) => true,
        _ => false,
    }
}

/// What is wrong with a write to the designator at `place`, in the statement at `at`: E14 where it may not be
/// written, E10 where a function writes a global.
fn write_fault(in_function: bool, at: Span, place: Span, start: &Start) -> Option<Fault>
    ensures { result ≡ write_fault in_function at place start.now }
{
    let local = if in_function { !is_global(start) } else { true };
    sooner(
        unless(may_write(start), Cause::E14, place),
        unless(local, Cause::E10, at),
    )
}

/// The designator that is written; one that is no variable has its fault.
fn target(start: Start, selectors: Items<Selector>, at: Span) -> Designator
    ensures { result ≡ target_of start selectors at }
{
    match start {
        Start::Rooted(root) => designator(root, selectors, at),
        Start::Fixed(_) => designator(Root::Global(0), selectors, at),
        Start::Nowhere => designator(Root::Global(0), selectors, at),
    }
}

fn simple_or(of: &Option<AnyType>) -> Simple
    ensures { result ≡ simple_or of.now }
{
    match simple_part(of) {
        Some(of) => of,
        None => Simple::Truth,
    }
}

fn type_or(of: Option<AnyType>) -> AnyType
    ensures { result ≡ type_or of }
{
    match of {
        Some(of) => of,
        None => AnyType::Simple(Simple::Truth),
    }
}

/// Whether a right side has values of the type of the left.
fn fits_into(to: &Option<AnyType>, found: &Option<AnyType>) -> bool
    ensures { result ≡ fits (goes_into to.now) found.now }
{
    match to {
        Some(to) => fits_value(to, found),
        None => true,
    }
}

/// What copies a designator: a copy of its cells, undefined ones included; what is no variable is a value.
fn copy_tree(
    to: Designator,
    simple: bool,
    into: Simple,
    start: Start,
    selectors: Items<Selector>,
    at: Span,
) -> Stmt
    ensures { result ≡ copy_of to simple into start selectors at }
{
    match start {
        Start::Rooted(root) => {
            let from = designator(root, selectors, at);
            if simple {
                Stmt::Copy { to, into, from }
            } else {
                Stmt::CopyAll { to, from }
            }
        }
        Start::Fixed(value) => Stmt::Assign { to, into, value },
        Start::Nowhere => Stmt::Assign {
            to,
            into,
            value: Expr::Known(Value::Undefined),
        },
    }
}

/// `to := from`, both plain designators.
pub fn copied(in_function: bool, to: JudgedPlace, from: JudgedPlace) -> JudgedStmt
    ensures { result ≡ copied_judged in_function to from }
{
    let fits = fits_into(&to.of, &from.of);
    let written = write_fault(in_function, to.at, to.at, &to.start);
    let right = sooner(from.fault, unless(fits, Cause::E07, from.at));
    let simple = fits_simple(&to.of);
    let into = simple_or(&to.of);
    let weight = plus(to.weight, from.weight);
    let fault = sooner(to.fault, sooner(written, right));
    let left = target(to.start, to.selectors, to.at);
    let tree = copy_tree(left, simple, into, from.start, from.selectors, from.at);
    one_statement(tree, weight, fault)
}

/// `to := value`, any other expression, at this place.
pub fn stored(in_function: bool, at: Span, to: JudgedPlace, value: Judged) -> JudgedStmt
    ensures { result ≡ stored_judged in_function at to value }
{
    let fits = fits_into(&to.of, &value.of);
    let written = write_fault(in_function, to.at, to.at, &to.start);
    let right = sooner(value.fault, unless(fits, Cause::E07, at));
    let into = simple_or(&to.of);
    let weight = plus(to.weight, value.weight);
    let fault = sooner(to.fault, sooner(written, right));
    let tree = Stmt::Assign {
        to: target(to.start, to.selectors, to.at),
        into,
        value: value.tree,
    };
    one_statement(tree, weight, fault)
}

/// `clear`, at this place.
pub fn cleared(in_function: bool, at: Span, part: JudgedPlace) -> JudgedStmt
    ensures { result ≡ cleared_judged in_function at part }
{
    let written = write_fault(in_function, at, part.at, &part.start);
    let fault = sooner(part.fault, written);
    let tree = Stmt::Clear {
        place: target(part.start, part.selectors, part.at),
        of: type_or(part.of),
        at,
    };
    one_statement(tree, part.weight, fault)
}

/// `undefine`, at this place.
pub fn undefined(in_function: bool, at: Span, part: JudgedPlace) -> JudgedStmt
    ensures { result ≡ undefined_judged in_function at part }
{
    let written = write_fault(in_function, at, part.at, &part.start);
    let fault = sooner(part.fault, written);
    let tree = Stmt::Undefine {
        place: target(part.start, part.selectors, part.at),
        at,
    };
    one_statement(tree, part.weight, fault)
}

fn is_function(routine: &Routine) -> bool
    ensures { result ≡ is_function routine.now }
{
    routine.result.is_some()
}

/// What is wrong with a routine as a statement: a function is none, and a function calls no procedure.
fn statement_fault(in_function: bool, at: Span, routine: &Option<Shared<Routine>>) -> Option<Fault>
    ensures { result ≡ first_fault (statement_faults in_function at routine.now) }
{
    match routine {
        None => None,
        Some(routine) => {
            if is_function(routine.get()) {
                return Some(Fault {
                    cause: Cause::E11,
                    at,
                });
            }
            if in_function {
                Some(Fault {
                    cause: Cause::E10,
                    at,
                })
            } else {
                None
            }
        }
    }
}

fn count_fits(routine: &Option<Shared<Routine>>, count: usize) -> bool
    ensures { result ≡ count_fits routine.now count }
{
    match routine {
        Some(routine) => routine.get().formals.len() == count,
        None => true,
    }
}

/// A call of a procedure, at the place of its name.
pub fn called(
    in_function: bool,
    at: Span,
    callee: JudgedCallee,
    given: JudgedArguments,
) -> JudgedStmt
    ensures { result ≡ called_judged in_function at callee given }
{
    let counted = count_fits(&callee.routine, given.trees.len());
    let own = sooner(
        statement_fault(in_function, at, &callee.routine),
        sooner(unless(counted, Cause::E11, at), given.fault),
    );
    let fault = sooner(callee.fault, own);
    let weight = plus(given.weight, callee.weight);
    let tree = Stmt::Call {
        routine: callee.number,
        args: Arguments::Of(given.trees),
        at,
    };
    one_statement(tree, weight, fault)
}

/// A part that has to be simple.
pub fn as_simple(part: Judged, at: Span) -> Judged
    ensures { result ≡ kept (fits is_simple part.of) at part }
{
    let fits = fits_simple(&part.of);
    kept(part, fits, at)
}

/// A part that has to have values of the type of a result, where that is known.
pub fn as_result(part: Judged, of: Option<Simple>, at: Span) -> Judged
    ensures { result ≡ kept (fits (is_result of) part.of) at part }
{
    let fits = match of {
        Some(of) => fits_values_of(of, &part.of),
        None => true,
    };
    kept(part, fits, at)
}

/// `assert`.
pub fn asserted(at: Span, test: Judged) -> JudgedStmt
    ensures { result ≡ asserted_judged at test }
{
    one_statement(
        Stmt::Assert {
            test: test.tree,
            at,
        },
        test.weight,
        test.fault,
    )
}

/// `put` of a value.
pub fn shown(at: Span, value: Judged) -> JudgedStmt
    ensures { result ≡ shown_judged at value }
{
    one_statement(
        Stmt::Put {
            value: value.tree,
            at,
        },
        value.weight,
        value.fault,
    )
}

/// `return` of a value.
pub fn returned(at: Span, value: Judged) -> JudgedStmt
    ensures { result ≡ returned_judged at value }
{
    one_statement(
        Stmt::Return {
            value: value.tree,
            at,
        },
        value.weight,
        value.fault,
    )
}

/// `return` without a value, or with a fault.
pub fn left(at: Span, fault: Option<Fault>) -> JudgedStmt
    ensures { result ≡ left_judged at fault }
{
    one_statement(Stmt::Leave { at }, 0, fault)
}

/// `if`, with its tests and its `else` part.
pub fn if_made(at: Span, arms: JudgedArms, otherwise: JudgedStmts) -> JudgedStmt
    ensures { result ≡ if_judged at arms otherwise }
{
    let weight = plus(arms.weight, otherwise.weight);
    let fault = sooner(arms.fault, otherwise.fault);
    let tree = Stmt::If {
        arms: arms.trees,
        otherwise: otherwise.trees,
        at,
    };
    one_statement(tree, weight, fault)
}

/// `switch`, with its cases and its `else` part.
pub fn switch_made(at: Span, on: Judged, cases: JudgedCases, otherwise: JudgedStmts) -> JudgedStmt
    ensures { result ≡ switch_judged at on cases otherwise }
{
    let weight = plus(on.weight, plus(cases.weight, otherwise.weight));
    let fault = sooner(on.fault, sooner(cases.fault, otherwise.fault));
    let tree = Stmt::Switch {
        on: on.tree,
        cases: cases.trees,
        otherwise: otherwise.trees,
        at,
    };
    one_statement(tree, weight, fault)
}

/// `for`, over a simple type: its body counts once for each value of a finite type.
pub fn for_made(at: Span, over: JudgedType, body: JudgedStmts) -> JudgedStmt
    ensures { result ≡ for_judged at over body }
{
    let weight = times(turns(simple_part(&over.of)), body.weight);
    let fault = sooner(over.fault, body.fault);
    let tree = Stmt::For {
        over: simple_or(&over.of),
        body: body.trees,
        at,
    };
    one_statement(tree, weight, fault)
}

/// One statement more.
pub fn more_statements(done: &mut JudgedStmts, one: JudgedStmt) -> Result<(), Memory>
    ensures { OnOk result (done.new ≡ stated_by one done.old) }
{
    done.trees.push(one.tree)?;
    done.weight = plus(done.weight, one.weight);
    done.fault = sooner(done.fault, one.fault);
    Ok(())
}

/// One label more.
pub fn more_labels(done: &mut JudgedLabels, one: Judged) -> Result<(), Memory>
    ensures { OnOk result (done.new ≡ labelled_by one done.old) }
{
    done.trees.push(one.tree)?;
    done.weight = plus(done.weight, one.weight);
    done.fault = sooner(done.fault, one.fault);
    Ok(())
}

/// One test more, with the statements that it guards.
pub fn more_arms(done: &mut JudgedArms, test: Judged, body: JudgedStmts) -> Result<(), Memory>
    ensures { OnOk result (done.new ≡ armed_by test body done.old) }
{
    let weight = plus(test.weight, body.weight);
    let fault = sooner(test.fault, body.fault);
    done.trees.push(Arm {
        test: test.tree,
        body: body.trees,
    })?;
    done.weight = plus(done.weight, weight);
    done.fault = sooner(done.fault, fault);
    Ok(())
}

/// One case more, with its labels and its statements.
pub fn more_cases(
    done: &mut JudgedCases,
    labels: JudgedLabels,
    body: JudgedStmts,
) -> Result<(), Memory>
    ensures { OnOk result (done.new ≡ cased_by labels body done.old) }
{
    let weight = plus(labels.weight, body.weight);
    let fault = sooner(labels.fault, body.fault);
    done.trees.push(Case {
        labels: labels.trees,
        body: body.trees,
    })?;
    done.weight = plus(done.weight, weight);
    done.fault = sooner(done.fault, fault);
    Ok(())
}
