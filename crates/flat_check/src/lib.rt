//! Whether a flat protocol is inductive, decided by trying every state.
#![tactic(auto, using(crate::proofs::Equations::steps))]

mod eval;
mod firing;
mod known;
mod names;
mod search;
mod starts;

ghost use Rattle.std.specs.Prelude.{◌≡◌, IfOk, MatchOption};
ghost use Rattle.murphi_ast.specs.declared.rule.Protocol.{Protocol};
ghost use Rattle.murphi_ast.specs.Safety.{IsInductive};
ghost use Rattle.flat_check.specs.declared.Finding.{Finding};
ghost use Rattle.flat_check.specs.declared.Formula.{Formula};
ghost use Rattle.flat_check.specs.Verdict.{IsVerdict, IsFinding};
ghost use Rattle.flat_check.specs.Search.{IsClear, IsFound};

use crate::names::variables;
use crate::search::search;
use crate::starts::first_bad_start;
use murphi_ast::rule::{Protocol, RuleDecl};
use murphi_ast::text::{Memory, Text};
use sqlite_items::Items;
use std::alloc::Global;

/// A formula that is violated. Items go by their number in text order, from 0.
#[derive(Debug, Clone, Copy, PartialEq, Eq)]
pub enum Formula {
    /// The invariant that this item is, or that the rule that this item is does not fault.
    Item(usize),
    /// That the start state that this item is does not fault.
    StartFault(usize),
}

/// Where a protocol is not inductive. A state has a cell for each variable, in the order of the
/// declarations: none where it is undefined.
#[derive(Drop)]
pub enum Finding {
    /// The start state that this item is leaves this state, which violates a formula. A start state
    /// that faults counts as leaving every variable undefined.
    BadStart {
        start: usize,
        state: Items<Option<bool>>,
    },
    /// The rule that this item is leads from a state that violates nothing into one that violates a
    /// formula.
    BadStep {
        from: Items<Option<bool>>,
        rule: usize,
        to: Items<Option<bool>>,
    },
}

/// Whether a protocol is inductive. Where it is not, what was found, and the first formula that
/// the last state violates.
#[derive(Drop)]
pub enum Verdict {
    Inductive,
    Found { finding: Finding, formula: Formula },
}

/// What is found, and the first formula that its last state violates.
#[derive(Drop)]
struct Found {
    finding: Finding,
    formula: Formula,
}

/// The first bad start, or else the first bad step, or none.
fn first_finding(alloc: Global, names: &[Text], items: &[RuleDecl]) -> Result<Option<Found>, Memory>
    ensures { IfOk result (λ r. MatchOption r (IsClear names.now items.now) (λ f. IsFound names.now items.now f)) }
{
    match first_bad_start(alloc, names, items)? {
        Some(found) => Ok(Some(found)),
        None => {
            let known = known::build(alloc, names, items, &[], names.len())?;
            let found = search(alloc, names, items, &known, &[], names.len())?;
            Ok(found)
        }
    }
}

/// Decides whether a flat protocol is inductive, by trying every start and every step.
pub fn check(alloc: Global, p: &Protocol) -> Result<Verdict, Memory>
    ensures { IfOk result (λ v. IsVerdict p.now v) }
{
    let names = variables(alloc, p)?;
    match first_finding(alloc, names.as_slice(), p.rules.as_slice())? {
        Some(found) => {
            let Found { finding, formula } = found;
            Ok(Verdict::Found { finding, formula })
        }
        None => Ok(Verdict::Inductive),
    }
}

/// What is found shows that a protocol is not inductive.
pub fn finding_is_no_proof()
    ensures { (p : Protocol) (finding : Finding) (formula : Formula) → IsFinding p finding formula → IsInductive p → ⊥ }
{}
