//! The breaks that stand in single statements: a `clear` of scalarset values, a `return` inside a `for`
//! over nodes, and a `for` over nodes in a function. None of this takes memory.

#![tactic(auto, using(crate::proofs::ScanEquations::scanning))]

ghost use Rattle.std.specs.Prelude.{◌≡◌, ◌||◌};
ghost use Rattle.murphi_typed.specs.Execution.{at_of};
ghost use Rattle.scalarset_rules.specs.Rules.{is_scalarset_type, holds_scalarset, bad_clear, bad_return, bad_for, first_break};
ghost use Rattle.scalarset_rules.specs.Scanning.{list_holds, own_break, first_inner, first_all, first_arms, first_cases, first_in_body};

use crate::judge::{Break, first_of, one};
use crate::place::first_token;
use murphi_typed::stmt::{Arm, Case, Stmt};
use murphi_typed::types::{AnyType, Field, Simple};

/// What is looked for.
#[derive(Debug, Clone, Copy, PartialEq, Eq)]
pub(crate) enum Want {
    Clear,
    Return,
    For,
}

fn is_scalarset(type_: Simple) -> bool
    ensures { result ≡ is_scalarset_type type_ }
{
    match type_ {
        Simple::Scalarset { .. } => true,
        Simple::Node => true,
        Simple::Truth => false,
        Simple::Range { .. } => false,
        Simple::Listed { .. } => false,
    }
}

/// Whether a type holds scalarset values. An index type does not count.
#[cycle(holds)]
fn holds(type_: &AnyType) -> bool
    ensures { result ≡ holds_scalarset type_.now }
{
    match type_ {
        AnyType::Simple(s) => is_scalarset(*s),
        AnyType::Record { fields } => any_holds(fields.as_slice()),
        AnyType::Array { item, .. } => holds(item.get()),
    }
}

#[cycle(holds)]
fn any_holds(fields: &[Field]) -> bool
    ensures { result ≡ list_holds fields.now }
{
    for field in fields {
        if holds(&field.of) {
            return true;
        }
    }
    false
}

fn own_clear(s: &Stmt) -> Option<Break>
    ensures { result ≡ first_break (bad_clear s.now) }
{
    match s {
        Stmt::Clear { place, of, .. } => {
            if holds(of) {
                one(3, first_token(place))
            } else {
                None
            }
        }
        _ => None,
    }
}

fn own_return(inside: bool, s: &Stmt) -> Option<Break>
    ensures { result ≡ first_break (bad_return inside s.now) }
{
    if !inside {
        return None;
    }
    match s {
        Stmt::Leave { at } => one(4, *at),
        Stmt::Return { at, .. } => one(4, *at),
        _ => None,
    }
}

fn own_for(s: &Stmt) -> Option<Break>
    ensures { result ≡ first_break (bad_for s.now) }
{
    match s {
        Stmt::For { over, at, .. } => {
            if over.is_over_nodes() {
                one(8, *at)
            } else {
                None
            }
        }
        _ => None,
    }
}

fn own(want: Want, inside: bool, s: &Stmt) -> Option<Break>
    ensures { result ≡ own_break want inside s.now }
{
    match want {
        Want::Clear => own_clear(s),
        Want::Return => own_return(inside, s),
        Want::For => own_for(s),
    }
}

/// The first break in the statements that stand in a statement.
#[cycle(scan)]
fn scan(want: Want, inside: bool, s: &Stmt) -> Option<Break>
    ensures { result ≡ first_inner want inside s.now }
{
    match s {
        Stmt::Block(body) => scan_all(want, inside, body.as_slice()),
        Stmt::If {
            arms,
            otherwise,
            ..
        } => {
            let first = scan_arms(want, inside, arms.as_slice());
            let second = scan_all(want, inside, otherwise.as_slice());
            first_of(first, second)
        }
        Stmt::Switch {
            cases,
            otherwise,
            ..
        } => {
            let first = scan_cases(want, inside, cases.as_slice());
            let second = scan_all(want, inside, otherwise.as_slice());
            first_of(first, second)
        }
        Stmt::For { over, body, .. } => {
            let within = inside || over.is_over_nodes();
            scan_all(want, within, body.as_slice())
        }
        Stmt::Assign { .. }
        | Stmt::Copy { .. }
        | Stmt::CopyAll { .. }
        | Stmt::Call { .. }
        | Stmt::Clear { .. }
        | Stmt::Undefine { .. }
        | Stmt::Error { .. }
        | Stmt::Assert { .. }
        | Stmt::PutText { .. }
        | Stmt::Put { .. }
        | Stmt::Leave { .. }
        | Stmt::Return { .. } => None,
    }
}

#[cycle(scan)]
fn scan_all(want: Want, inside: bool, body: &[Stmt]) -> Option<Break>
    ensures { result ≡ first_all want inside body.now }
{
    let mut first = None;
    for s in body {
        let inner = scan(want, inside, s);
        let more = first_of(own(want, inside, s), inner);
        first = first_of(first, more);
    }
    first
}

#[cycle(scan)]
fn scan_arms(want: Want, inside: bool, arms: &[Arm]) -> Option<Break>
    ensures { result ≡ first_arms want inside arms.now }
{
    let mut first = None;
    for arm in arms {
        let more = scan_all(want, inside, arm.body.as_slice());
        first = first_of(first, more);
    }
    first
}

#[cycle(scan)]
fn scan_cases(want: Want, inside: bool, cases: &[Case]) -> Option<Break>
    ensures { result ≡ first_cases want inside cases.now }
{
    let mut first = None;
    for case in cases {
        let more = scan_all(want, inside, case.body.as_slice());
        first = first_of(first, more);
    }
    first
}

/// The first break that is looked for in a whole body.
pub(crate) fn scan_body(want: Want, body: &Stmt) -> Option<Break>
    ensures { result ≡ first_in_body want body.now }
{
    let inner = scan(want, false, body);
    first_of(own(want, false, body), inner)
}
