//! Statements, rules and start states in a state, and the first formula that a state violates.
//! States are as in `eval`.

ghost use Rattle.std.specs.Prelude.{◌≡◌, IfOk, None, replicate, length};
ghost use Rattle.std.specs.List.{position_from};
ghost use Rattle.murphi_ast.specs.State.{with_cell};
ghost use Rattle.murphi_ast.specs.Meaning.{written, after, after_all};
ghost use Rattle.murphi_ast.specs.Step.{guard_value, fired, started, ended, breaks, faults};
ghost use Rattle.flat_check.specs.Walk.{HasRun, HasLength, firing_of, violated_in};

use crate::eval::{cell, is_plain, value};
use murphi_ast::expr::Expr;
use murphi_ast::rule::RuleDecl;
use murphi_ast::stmt::Stmt;
use murphi_ast::text::{Memory, Text};
use sqlite_items::Items;
use std::alloc::Global;

/// What comes of firing an item: it is no such item, or its guard is false; its guard faults, or
/// is true and its body faults; or its body ends in a state.
#[derive(Drop)]
pub enum Outcome {
    Disabled,
    Faults,
    Moves(Items<Option<bool>>),
}

/// Gives the variable of this name another cell.
fn assign(names: &[Text], cells: &mut [Option<bool>], name: &Text, new: Option<bool>)
    ensures { cells.new ≡ with_cell names.now cells.old name.now new }
{
    for (at, one) in names.iter().enumerate() {
        if at >= cells.len() {
            return;
        }
        if one.bytes() == name.bytes() {
            cells[at] = new;
            return;
        }
    }
}

/// What an assignment of this expression writes, or none where it faults. A plain name is copied,
/// undefined or not.
fn written(names: &[Text], cells: &[Option<bool>], e: &Expr) -> Option<Option<bool>>
    ensures { result ≡ written names.now cells.now e.now }
{
    match e {
        Expr::Place(place) => {
            if is_plain(place) {
                Some(cell(names, cells, &place.root.name))
            } else {
                None
            }
        }
        _ => match value(names, cells, e) {
            Some(b) => Some(Some(b)),
            None => None,
        },
    }
}

/// Runs a statement on these cells, and says whether it ends. Where it faults, the cells hold no
/// state any more.
fn run(names: &[Text], cells: &mut [Option<bool>], stmt: &Stmt) -> bool
    ensures { HasRun (after names.now cells.old stmt.now) cells.new result }
{
    match stmt {
        Stmt::Assign { to, value } => {
            if !is_plain(to) {
                return false;
            }
            match written(names, cells, value) {
                Some(new) => {
                    assign(names, cells, &to.root.name, new);
                    true
                }
                None => false,
            }
        }
        _ => false,
    }
}

/// Runs a body on these cells, as `run` does a statement.
fn run_all(names: &[Text], cells: &mut [Option<bool>], body: &[Stmt]) -> bool
    ensures { HasRun (after_all names.now cells.old body.now) cells.new result }
{
    for stmt in body {
        if !run(names, cells, stmt) {
            return false;
        }
    }
    true
}

/// What comes of running a body in a state.
fn run_from(
    alloc: Global,
    names: &[Text],
    cells: &[Option<bool>],
    body: &[Stmt],
) -> Result<Outcome, Memory>
    ensures firing { IfOk result (λ o. firing_of o ≡ ended (after_all names.now cells.now body.now)) }
    ensures keeps { IfOk result (λ o. HasLength o (length cells.now)) }
{
    let mut next = Vec::from_slice(alloc, cells)?;
    if run_all(names, next.as_mut_slice(), body) {
        Ok(Outcome::Moves(Items::from_vec(next)))
    } else {
        Ok(Outcome::Faults)
    }
}

/// The value of a guard, which is true where none is written.
fn guard_value(names: &[Text], cells: &[Option<bool>], guard: &Option<Expr>) -> Option<bool>
    ensures { result ≡ guard_value names.now cells.now guard.now }
{
    match guard {
        Some(guard) => value(names, cells, guard),
        None => Some(true),
    }
}

/// What comes of firing an item as a rule in a state.
pub fn fire(
    alloc: Global,
    names: &[Text],
    cells: &[Option<bool>],
    item: &RuleDecl,
) -> Result<Outcome, Memory>
    ensures firing { IfOk result (λ o. firing_of o ≡ fired names.now cells.now item.now) }
    ensures keeps { IfOk result (λ o. HasLength o (length cells.now)) }
{
    match item {
        RuleDecl::Rule { guard, body, .. } => match guard_value(names, cells, guard) {
            None => Ok(Outcome::Faults),
            Some(false) => Ok(Outcome::Disabled),
            Some(true) => {
                let outcome = run_from(alloc, names, cells, body.as_slice())?;
                Ok(outcome)
            }
        },
        _ => Ok(Outcome::Disabled),
    }
}

/// The state in which each of so many variables is undefined.
pub fn undefined(alloc: Global, count: usize) -> Result<Items<Option<bool>>, Memory>
    ensures { IfOk result (λ s. s ≡ replicate count None) }
{
    let mut cells = Items::new(alloc);
    for _ in 0..count {
        cells.push(None)?;
    }
    Ok(cells)
}

/// What comes of running an item as a start state.
pub fn start(alloc: Global, names: &[Text], item: &RuleDecl) -> Result<Outcome, Memory>
    ensures { IfOk result (λ o. firing_of o ≡ started names.now item.now) }
{
    match item {
        RuleDecl::Start { body, .. } => {
            let cells = undefined(alloc, names.len())?;
            let outcome = run_from(alloc, names, cells.as_slice(), body.as_slice())?;
            Ok(outcome)
        }
        _ => Ok(Outcome::Disabled),
    }
}

/// Whether an item is an invariant that does not hold in a state; a fault makes it not hold.
fn breaks(names: &[Text], cells: &[Option<bool>], item: &RuleDecl) -> bool
    ensures { result ≡ breaks names.now cells.now item.now }
{
    match item {
        RuleDecl::Invariant { body, .. } => match value(names, cells, body) {
            Some(true) => false,
            _ => true,
        },
        _ => false,
    }
}

/// Whether an item is a rule that faults in a state.
fn faults(
    alloc: Global,
    names: &[Text],
    cells: &[Option<bool>],
    item: &RuleDecl,
) -> Result<bool, Memory>
    ensures { IfOk result (λ b. b ≡ faults names.now cells.now item.now) }
{
    match fire(alloc, names, cells, item)? {
        Outcome::Faults => Ok(true),
        _ => Ok(false),
    }
}

/// The first invariant that does not hold in a state.
fn first_broken(names: &[Text], cells: &[Option<bool>], items: &[RuleDecl]) -> Option<usize>
    ensures { result ≡ position_from (breaks names.now cells.now) 0 items.now }
{
    for (at, item) in items.iter().enumerate() {
        if breaks(names, cells, item) {
            return Some(at);
        }
    }
    None
}

/// The first rule that faults in a state.
fn first_fault(
    alloc: Global,
    names: &[Text],
    cells: &[Option<bool>],
    items: &[RuleDecl],
) -> Result<Option<usize>, Memory>
    ensures { IfOk result (λ r. r ≡ position_from (faults names.now cells.now) 0 items.now) }
{
    for (at, item) in items.iter().enumerate() {
        if faults(alloc, names, cells, item)? {
            return Ok(Some(at));
        }
    }
    Ok(None)
}

/// The item whose formula is the first that a state violates: an invariant that does not hold, or
/// else a rule that faults.
pub fn violated(
    alloc: Global,
    names: &[Text],
    cells: &[Option<bool>],
    items: &[RuleDecl],
) -> Result<Option<usize>, Memory>
    ensures { IfOk result (λ r. r ≡ violated_in names.now items.now cells.now) }
{
    match first_broken(names, cells, items) {
        Some(at) => Ok(Some(at)),
        None => {
            let fault = first_fault(alloc, names, cells, items)?;
            Ok(fault)
        }
    }
}
