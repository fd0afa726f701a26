//! The machine of one flag, which is false at first, and which a node sets: each call is made once with ample
//! memory, and its answer compared with what was worked out by hand.
#![tactic(auto, using(crate::proofs::FlagLemmas::flags))]

ghost use Rattle.std.specs.Prelude.{◌≡◌, ◌∷◌, [], IfOk, Bool};
ghost use Rattle.abstract_rows.specs.Flag.{IsFlag, flag, never, off};
ghost use Rattle.abstract_rows.specs.Terms.{truth, cell, family, rule, update};
ghost use Rattle.other_abstract.specs.declared.value.AbsValue.TheVariants.{Truth};
ghost use Rattle.term_core.specs.declared.value.Sort.TheVariants.{Truth as TruthSort};

use lemma_strengthen::formula::{Formula, FormulaKind};
use other_abstract::machine::AbstractMachine;
use other_abstract::node::AbsNode;
use other_abstract::state::{AbsState, AbsStep, Pattern};
use other_abstract::value::AbsValue;
use sqlite_items::{Boxed, Items};
use std::alloc::Global;
use std::process::Abort;
use std::test::Fail;
use term_core::machine::{CellFamily, TermMachine, TermRule, Update};
use term_core::term::Term;
use term_core::text::{Memory, Text};
use term_core::value::{Sort, Value};

fn truth(b: bool) -> Term
    ensures { result ≡ truth b }
{
    Term::Known(Value::Truth(b))
}

fn off(alloc: Global) -> Result<Term, Memory>
    ensures { IfOk result (λ t. t ≡ off) }
{
    let at = Items::new(alloc);
    let body = Boxed::new(alloc, Term::Read { family: 0, at })?;
    Ok(Term::Not(body))
}

/// What sets the flag, or clears it.
fn writes(alloc: Global, to: bool) -> Result<Items<Update>, Memory>
    ensures { IfOk result (λ us. us ≡ update 0 (truth to) ∷ []) }
{
    let mut updates = Items::new(alloc);
    let body = truth(to);
    updates.push(Update { family: 0, body })?;
    Ok(updates)
}

/// A rule or start that writes the flag.
fn rule(alloc: Global, values: Items<Value>, guard: Term, to: bool) -> Result<TermRule, Memory>
    ensures { IfOk result (λ r. r ≡ rule [] values guard (update 0 (truth to) ∷ [])) }
{
    let updates = writes(alloc, to)?;
    let title = Text::make(alloc, b"")?;
    let params = Items::new(alloc);
    let ok = Items::new(alloc);
    Ok(TermRule {
        title,
        values,
        params,
        prefix: 1,
        guard,
        ok,
        updates,
    })
}

fn families(alloc: Global) -> Result<Items<CellFamily>, Memory>
    ensures { IfOk result (λ fs. fs ≡ family TruthSort 0 ∷ []) }
{
    let name = Text::make(alloc, b"")?;
    let mut families = Items::new(alloc);
    families.push(CellFamily {
        name,
        sort: Sort::Truth,
        axes: 0,
        undefined: true,
    })?;
    Ok(families)
}

fn machine(alloc: Global) -> Result<TermMachine, Memory>
    ensures { IfOk result (λ m. m ≡ flag) }
{
    let mut starts = Items::new(alloc);
    starts.push(rule(alloc, Items::new(alloc), truth(true), false)?)?;
    let mut values = Items::new(alloc);
    values.push(Value::Node(1))?;
    let mut rules = Items::new(alloc);
    rules.push(rule(alloc, values, off(alloc)?, true)?)?;
    Ok(TermMachine {
        kinds: Items::new(alloc),
        families: families(alloc)?,
        starts,
        rules,
    })
}

fn formulas(alloc: Global) -> Result<Vec<Formula>, Memory>
    ensures { IfOk result (λ v. v.items ≡ never ∷ []) }
{
    let title = Text::make(alloc, b"")?;
    let mut formulas = Vec::new(alloc);
    formulas.push(Formula {
        kind: FormulaKind::Invariant(title),
        prefix: 0,
        body: off(alloc)?,
    })?;
    Ok(formulas)
}

pub(crate) fn made(alloc: Global) -> Result<AbstractMachine, Memory>
    ensures { IfOk result IsFlag }
{
    let machine = machine(alloc)?;
    let formulas = formulas(alloc)?;
    match AbstractMachine::make(alloc, machine, formulas, 1) {
        Ok(made) => Ok(made),
        Err(_) => Err(Memory),
    }
}

/// The state in which the flag is set or not.
pub(crate) fn state(alloc: Global, set: bool) -> Result<AbsState, Memory>
    ensures { IfOk result (λ s. s.values ≡ Truth set ∷ []) }
{
    let mut values = Items::new(alloc);
    values.push(AbsValue::Truth(set))?;
    Ok(AbsState { values })
}

/// The machine is the one that was given, and a window has the one cell.
#[test]
fn machines_are_made(rt: HostRuntime) -> Result<(), Fail> {
    let m = made(rt.alloc())?;
    assert_eq!(rt; m.kept(), 1);
    assert_eq!(rt; m.cells(1), 1);
    assert_eq!(rt; m.machine().rules.len(), 1);
    assert_eq!(rt; m.formulas().len(), 1);
    Ok(())
}

/// How many patterns have the first fired node alone.
fn fired(patterns: &[Pattern]) -> usize {
    let mut count: usize = 0;
    for pattern in patterns {
        if pattern.nodes() == [AbsNode::Fired(1)].as_slice() {
            count = count.saturating_add(1);
        }
    }
    count
}

/// The kept node or one more sets the flag; the start has no node.
#[test]
fn patterns_are_listed(rt: HostRuntime) -> Result<(), Fail> {
    let alloc = rt.alloc();
    let m = made(alloc)?;
    let of_rule = m.patterns(alloc, 0)?;
    assert_eq!(rt; of_rule.len(), 2);
    assert_eq!(rt; fired(&of_rule), 1);
    let of_start = m.start_patterns(alloc, 0)?;
    assert_eq!(rt; of_start.len(), 1);
    assert_eq!(rt; fired(&of_start), 0);
    Ok(())
}

/// Where the flag is not set, "not set" may be true and nothing else.
#[test]
fn values_are_found(rt: HostRuntime) -> Result<(), Fail> {
    let alloc = rt.alloc();
    let m = made(alloc)?;
    let wide = state(alloc, false)?;
    let set = m.may(alloc, &wide, 1, &[AbsNode::Fired(1)], &off(alloc)?)?;
    assert_eq!(rt; set.values(), [AbsValue::Truth(true)].as_slice());
    Ok(())
}

/// A start leaves the flag not set, and never faults.
#[test]
fn starts_are_decided(rt: HostRuntime) -> Result<(), Fail> {
    let alloc = rt.alloc();
    let m = made(alloc)?;
    let none = Pattern::of(alloc, &[]);
    let clear = state(alloc, false)?;
    let set = state(alloc, true)?;
    assert!(rt; m.starts(0, &none, &clear)?);
    assert!(rt; !m.starts(0, &none, &set)?);
    assert!(rt; !m.start_faults(0, &none)?);
    Ok(())
}

/// Whether a firing by a node that is not kept leads from one value of the flag to another.
fn leads(alloc: Global, m: &AbstractMachine, from: bool, to: bool) -> Result<bool, Memory>
    requires { IsFlag m.now }
{
    let first = state(alloc, from)?;
    let wide = state(alloc, from)?;
    let to = state(alloc, to)?;
    let pattern = Pattern::of(alloc, &[AbsNode::Fired(1)]);
    let step = AbsStep {
        rule: 0,
        pattern,
        wide,
        to,
    };
    let b = m.allows(&first, &step)?;
    Ok(b)
}

/// The flag is set where it is not set, and there alone.
#[test]
fn steps_are_decided(rt: HostRuntime) -> Result<(), Fail> {
    let alloc = rt.alloc();
    let m = made(alloc)?;
    assert!(rt; leads(alloc, &m, false, true)?);
    assert!(rt; !leads(alloc, &m, false, false)?);
    assert!(rt; !leads(alloc, &m, true, true)?);
    Ok(())
}

/// The state in which the flag is set violates the formula, and the other does not.
#[test]
fn violations_are_decided(rt: HostRuntime) -> Result<(), Fail> {
    let alloc = rt.alloc();
    let m = made(alloc)?;
    let clear = state(alloc, false)?;
    let set = state(alloc, true)?;
    assert!(rt; m.violates(&set, 0)?);
    assert!(rt; !m.violates(&clear, 0)?);
    Ok(())
}
