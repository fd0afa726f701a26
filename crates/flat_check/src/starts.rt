//! The search for a bad start.

ghost use Rattle.std.specs.Prelude.{◌≡◌, ◌<◌, IfOk, MatchOption, length};
ghost use Rattle.flat_check.specs.Search.{IsGoodStart, AreGoodStarts, IsFound};

use crate::firing::{Outcome, start, undefined, violated};
use crate::{Finding, Formula, Found};
use murphi_ast::rule::RuleDecl;
use murphi_ast::text::{Memory, Text};
use sqlite_items::Items;
use std::alloc::Global;

/// What an item leaves as a start state, where that is bad. One that faults is always bad: it
/// violates a formula in the state of undefined variables, or else its own.
fn bad_start(
    alloc: Global,
    names: &[Text],
    items: &[RuleDecl],
    at: usize,
) -> Result<Option<Found>, Memory>
    requires { at < length items.now }
    ensures { IfOk result (λ r. MatchOption r (IsGoodStart names.now items.now at) (λ f. IsFound names.now items.now f)) }
{
    match start(alloc, names, &items[at])? {
        Outcome::Disabled => Ok(None),
        Outcome::Faults => {
            let state = undefined(alloc, names.len())?;
            let formula = match violated(alloc, names, state.as_slice(), items)? {
                Some(item) => Formula::Item(item),
                None => Formula::StartFault(at),
            };
            Ok(Some(Found {
                finding: Finding::BadStart { start: at, state },
                formula,
            }))
        }
        Outcome::Moves(state) => match violated(alloc, names, state.as_slice(), items)? {
            Some(item) => Ok(Some(Found {
                finding: Finding::BadStart { start: at, state },
                formula: Formula::Item(item),
            })),
            None => Ok(None),
        },
    }
}

/// The first bad start, or none.
pub fn first_bad_start(
    alloc: Global,
    names: &[Text],
    items: &[RuleDecl],
) -> Result<Option<Found>, Memory>
    ensures { IfOk result (λ r. MatchOption r (AreGoodStarts names.now items.now) (λ f. IsFound names.now items.now f)) }
{
    for at in 0..items.len() {
        if let Some(found) = bad_start(alloc, names, items, at)? {
            return Ok(Some(found));
        }
    }
    Ok(None)
}
