//! The search for a bad step over all states.

ghost use Rattle.std.specs.Prelude.{◌≡◌, ◌+◌, ◌<◌, ◌++◌, ◌∷◌, [], None, IfOk, MatchOption, length};
ghost use Rattle.flat_check.specs.Walk.{violated_in};
ghost use Rattle.flat_check.specs.Table.{IsKnown};
ghost use Rattle.flat_check.specs.Search.{IsFineStep, IsClean, IsCleanBelow, IsFound};

use crate::firing::{Outcome, fire};
use crate::known::{Known, extended};
use crate::{Finding, Formula, Found};
use murphi_ast::rule::RuleDecl;
use murphi_ast::text::{Memory, Text};
use sqlite_items::Items;
use std::alloc::Global;

/// The bad step by one rule from a state that violates nothing, or none.
fn bad_step(
    alloc: Global,
    names: &[Text],
    items: &[RuleDecl],
    known: &Known,
    from: &[Option<bool>],
    rule: usize,
) -> Result<Option<Found>, Memory>
    requires known { IsKnown names.now items.now [] (length names.now) known.now }
    requires is_state { length from.now ≡ length names.now }
    requires fine { violated_in names.now items.now from.now ≡ None }
    requires within { rule < length items.now }
    ensures { IfOk result (λ r. MatchOption r (IsFineStep names.now items.now from.now rule) (λ f. IsFound names.now items.now f)) }
{
    match fire(alloc, names, from, &items[rule])? {
        Outcome::Moves(to) => match known.violated(to.as_slice()) {
            Some(item) => {
                let from = Items::from_slice(alloc, from)?;
                Ok(Some(Found {
                    finding: Finding::BadStep { from, rule, to },
                    formula: Formula::Item(item),
                }))
            }
            None => Ok(None),
        },
        Outcome::Disabled => Ok(None),
        Outcome::Faults => Ok(None),
    }
}

/// The first bad step from a state that violates nothing, or none.
fn steps_from(
    alloc: Global,
    names: &[Text],
    items: &[RuleDecl],
    known: &Known,
    from: &[Option<bool>],
) -> Result<Option<Found>, Memory>
    requires known { IsKnown names.now items.now [] (length names.now) known.now }
    requires is_state { length from.now ≡ length names.now }
    requires fine { violated_in names.now items.now from.now ≡ None }
    ensures { IfOk result (λ r. MatchOption r (IsClean names.now items.now from.now) (λ f. IsFound names.now items.now f)) }
{
    for rule in 0..items.len() {
        if let Some(found) = bad_step(alloc, names, items, known, from, rule)? {
            return Ok(Some(found));
        }
    }
    Ok(None)
}

/// The first bad step from a state, or none: from a state that violates something, no step is bad.
fn step_from(
    alloc: Global,
    names: &[Text],
    items: &[RuleDecl],
    known: &Known,
    from: &[Option<bool>],
) -> Result<Option<Found>, Memory>
    requires known { IsKnown names.now items.now [] (length names.now) known.now }
    requires is_state { length from.now ≡ length names.now }
    ensures { IfOk result (λ r. MatchOption r (IsClean names.now items.now from.now) (λ f. IsFound names.now items.now f)) }
{
    match known.violated(from) {
        Some(_) => Ok(None),
        None => {
            let found = steps_from(alloc, names, items, known, from)?;
            Ok(found)
        }
    }
}

/// The first bad step from the states that begin with these cells and have `left` more, or none.
/// States go in the order undefined, false, true of each cell, the first slowest.
#[cycle(search)]
pub fn search(
    alloc: Global,
    names: &[Text],
    items: &[RuleDecl],
    known: &Known,
    front: &[Option<bool>],
    left: usize,
) -> Result<Option<Found>, Memory>
    requires known { IsKnown names.now items.now [] (length names.now) known.now }
    requires count { length front.now + left ≡ length names.now }
    ensures { IfOk result (λ r. MatchOption r (IsCleanBelow names.now items.now front.now left) (λ f. IsFound names.now items.now f)) }
{
    if left == 0 {
        let found = step_from(alloc, names, items, known, front)?;
        return Ok(found);
    }
    match search_with(alloc, names, items, known, front, None, left - 1)? {
        Some(found) => Ok(Some(found)),
        None => match search_with(alloc, names, items, known, front, Some(false), left - 1)? {
            Some(found) => Ok(Some(found)),
            None => {
                let found = search_with(alloc, names, items, known, front, Some(true), left - 1)?;
                Ok(found)
            }
        },
    }
}

/// The same, where the next cell is this one, and `left` more follow it.
#[cycle(search)]
fn search_with(
    alloc: Global,
    names: &[Text],
    items: &[RuleDecl],
    known: &Known,
    front: &[Option<bool>],
    cell: Option<bool>,
    left: usize,
) -> Result<Option<Found>, Memory>
    requires known { IsKnown names.now items.now [] (length names.now) known.now }
    requires count { length front.now + left + 1 ≡ length names.now }
    ensures { IfOk result (λ r. MatchOption r (IsCleanBelow names.now items.now (front.now ++ cell ∷ []) left) (λ f. IsFound names.now items.now f)) }
{
    let cells = extended(alloc, front, cell)?;
    let found = search(alloc, names, items, known, cells.as_slice(), left)?;
    Ok(found)
}
