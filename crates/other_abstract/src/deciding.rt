//! What the definitions of the abstract machine say of given states, patterns and steps, decided.

#![tactic(auto, using(crate::proofs::DecidingLemmas::deciding))]

ghost use Rattle.std.specs.Prelude.{◌≡◌, ◌↔◌, ◌≤◌, ◌<◌, Bool, length, Some, slice_get, IsTrue, IfOk};
ghost use Rattle.std.specs.List.{list_any, Contains};
ghost use Rattle.term_core.specs.declared.machine.TermRule.{TermRule};
ghost use Rattle.lemma_strengthen.specs.declared.formula.Formula.{Formula};
ghost use Rattle.other_abstract.specs.declared.value.AbsValue.{AbsValue};
ghost use Rattle.other_abstract.specs.May.{May};
ghost use Rattle.other_abstract.specs.Tests.{may, may_fail, window_nodes};
ghost use Rattle.other_abstract.specs.Lists.{window_in, IsScene};
ghost use Rattle.other_abstract.specs.Machines.{window, fired_of, blank, IsPattern, FitsWindow, AbsFires, AbsStarts};
ghost use Rattle.other_abstract.specs.Machines.{MayFault, Violates};
ghost use Rattle.other_abstract.specs.Places.{places};
ghost use Rattle.other_abstract.specs.Stepping.{is_step, is_start, may_fault};
ghost use Rattle.other_abstract.specs.Making.{IsMade};

use crate::evaluate::evaluate;
use crate::machine::AbstractMachine;
use crate::node::AbsNode;
use crate::places::{lists_of, places_in, window_nodes};
use crate::scene::Scene;
use crate::set::ValueSet;
use crate::starting::{all_begin, blank_cells, pieces_may_fail};
use crate::state::{AbsState, AbsStep, Pattern};
use crate::stepping::{
    all_become, all_may_hold, are_same, fired_of, kept_values, may_be, may_fail_at,
};
use crate::value::AbsValue;
use lemma_strengthen::formula::Formula;
use std::alloc::Global;
use term_core::laws::{lists_are_in_order, places_are_those_of_the_cells};
use term_core::machine::TermRule;
use term_core::term::Term;
use term_core::text::Memory;

impl AbstractMachine {
    /// The values that a term may have in a state of a window with so many fired nodes, with these nodes
    /// for its variables: each once and no others.
    pub fn may(
        &self,
        alloc: Global,
        wide: &AbsState,
        fired: u8,
        env: &[AbsNode],
        t: &Term,
    ) -> Result<ValueSet, Memory>
        requires { IsMade self.now }
        ensures values { IfOk result (λ out. (x : AbsValue) → Contains out x
            ↔ May (window self.now fired) wide.now.values env.now t.now x) }
        ensures tests { IfOk result (λ out. (p : AbsValue → Bool) → list_any p out
            ≡ may (window self.now fired) wide.now.values env.now t.now p) }
    {
        let nodes = window_nodes(alloc, self.kept, fired)?;
        let scene = scene_of(self, fired, wide.values.as_slice(), nodes.as_slice());
        let mut bound = Vec::from_slice(alloc, env)?;
        let out = evaluate(alloc, &scene, &mut bound, t)?;
        Ok(out)
    }

    /// Whether a start, with a pattern that fits it, may leave a state that fits the kept nodes.
    pub fn starts(&self, start: u32, pattern: &Pattern, to: &AbsState) -> Result<bool, Memory>
        requires made { IsMade self.now }
        requires start { start < length self.now.machine.starts }
        requires pattern { (r : TermRule) → slice_get self.now.machine.starts start ≡ Some r
            → IsPattern self.now.kept r pattern.now }
        requires to { FitsWindow (window self.now 0) to.now.values }
        ensures { IfOk result (λ b. IsTrue b ↔ AbsStarts self.now start pattern.now to.now.values) }
    {
        lists_are_in_order();
        places_are_those_of_the_cells();
        let rule = &self.machine.starts.as_slice()[start as usize];
        let b = is_start(self, rule, pattern.nodes(), to.values.as_slice())?;
        Ok(b)
    }

    /// Whether a step is one of the machine from a state: its pattern fits the rule, its wide state the
    /// window of the pattern, and both other states the kept nodes.
    pub fn allows(&self, from: &AbsState, step: &AbsStep) -> Result<bool, Memory>
        requires made { IsMade self.now }
        requires rule { step.now.rule < length self.now.machine.rules }
        requires pattern { (r : TermRule) → slice_get self.now.machine.rules step.now.rule ≡ Some r
            → IsPattern self.now.kept r step.now.pattern }
        requires wide { FitsWindow (window self.now (fired_of step.now.pattern)) step.now.wide.values }
        requires to { FitsWindow (window self.now 0) step.now.to.values }
        ensures { IfOk result (λ b. IsTrue b
            ↔ AbsFires self.now from.now.values step.now.rule step.now.pattern step.now.wide.values
            step.now.to.values) }
    {
        lists_are_in_order();
        places_are_those_of_the_cells();
        let rule = &self.machine.rules.as_slice()[step.rule as usize];
        let b = is_step(
            self,
            from.values.as_slice(),
            rule,
            step.pattern.nodes(),
            step.wide.values.as_slice(),
            step.to.values.as_slice(),
        )?;
        Ok(b)
    }

    /// Whether a state of the kept nodes violates a formula.
    pub fn violates(&self, state: &AbsState, formula: u32) -> Result<bool, Memory>
        requires made { IsMade self.now }
        requires formula { formula < length self.now.formulas }
        ensures { IfOk result (λ b. (f : Formula) → slice_get self.now.formulas formula ≡ Some f → IsTrue b
            ↔ Violates self.now state.now.values f) }
    {
        let formula = &self.formulas.as_slice()[formula as usize];
        let b = may_fail(self, state.values.as_slice(), formula)?;
        Ok(b)
    }

    /// Whether a piece of a start may be false for some kept nodes, under a pattern that fits it.
    pub fn start_faults(&self, start: u32, pattern: &Pattern) -> Result<bool, Memory>
        requires made { IsMade self.now }
        requires start { start < length self.now.machine.starts }
        ensures { IfOk result (λ b. (r : TermRule) → slice_get self.now.machine.starts start ≡ Some r → IsTrue b
            ↔ MayFault self.now r pattern.now) }
    {
        let rule = &self.machine.starts.as_slice()[start as usize];
        let b = may_fault(self, rule, pattern.nodes())?;
        Ok(b)
    }
}

/// A scene of the machine, with these cells and the nodes of the window.
fn scene_of<'a>(
    machine: &'a AbstractMachine,
    fired: u8,
    cells: &'a [AbsValue],
    nodes: &'a [AbsNode],
) -> Scene<'a>
    requires made { IsMade machine.now }
    requires nodes { nodes.now ≡ window_nodes (window machine.now fired) }
    ensures window { window_in result ≡ window machine.now fired }
    ensures cells { result.cells.now ≡ cells.now }
    ensures scene { IsScene result }
{
    Scene {
        kept: machine.kept,
        fired,
        families: machine.machine.families.as_slice(),
        cells,
        nodes,
    }
}

/// The state of a window with so many fired nodes before anything is written.
fn blank_of(
    machine: &AbstractMachine,
    fired: u8,
    nodes: &[AbsNode],
) -> Result<Vec<AbsValue>, Memory>
    requires { nodes.now ≡ window_nodes (window machine.now fired) }
    ensures { IfOk result (λ out. out.items ≡ blank (window machine.now fired)) }
{
    let families = machine.machine.families.as_slice();
    let out = blank_cells(machine.alloc, nodes, families)?;
    Ok(out)
}

/// Whether firing a rule may lead from one kept state to the other, by this wide state.
fn is_step(
    machine: &AbstractMachine,
    from: &[AbsValue],
    rule: &TermRule,
    pattern: &[AbsNode],
    wide: &[AbsValue],
    to: &[AbsValue],
) -> Result<bool, Memory>
    requires { IsMade machine.now }
    ensures { IfOk result (λ b. b ≡ is_step machine.now from.now rule.now pattern.now wide.now to.now) }
{
    let alloc = machine.alloc;
    let fired = fired_of(pattern);
    let nodes = window_nodes(alloc, machine.kept, fired)?;
    let kept = window_nodes(alloc, machine.kept, 0)?;
    let scene = scene_of(machine, fired, wide, nodes.as_slice());
    let next = scene_of(machine, 0, to, kept.as_slice());
    let places = places_in(alloc, kept.as_slice(), machine.machine.families.as_slice())?;
    let before = kept_values(alloc, &scene, places.as_slice())?;
    if !are_same(from, before.as_slice()) {
        return Ok(false);
    }
    let assumed = all_may_hold(alloc, &scene, machine.formulas.as_slice())?;
    if !assumed {
        return Ok(false);
    }
    let enabled = may_be(alloc, &scene, &[], pattern, &rule.guard, true)?;
    if !enabled {
        return Ok(false);
    }
    let b = all_become(
        alloc,
        &scene,
        &next,
        pattern,
        rule.updates.as_slice(),
        places.as_slice(),
    )?;
    Ok(b)
}

/// Whether a start may leave a kept state.
fn is_start(
    machine: &AbstractMachine,
    rule: &TermRule,
    pattern: &[AbsNode],
    to: &[AbsValue],
) -> Result<bool, Memory>
    requires { IsMade machine.now }
    ensures { IfOk result (λ b. b ≡ is_start machine.now rule.now pattern.now to.now) }
{
    let alloc = machine.alloc;
    let families = machine.machine.families.as_slice();
    let fired = fired_of(pattern);
    let nodes = window_nodes(alloc, machine.kept, fired)?;
    let kept = window_nodes(alloc, machine.kept, 0)?;
    let cells = blank_of(machine, fired, nodes.as_slice())?;
    let scene = scene_of(machine, fired, cells.as_slice(), nodes.as_slice());
    let next = scene_of(machine, 0, to, kept.as_slice());
    let places = places_in(alloc, kept.as_slice(), families)?;
    let b = all_begin(
        alloc,
        &scene,
        &next,
        pattern,
        rule.updates.as_slice(),
        places.as_slice(),
    )?;
    Ok(b)
}

/// Whether a formula may be false for some kept nodes.
fn may_fail(
    machine: &AbstractMachine,
    state: &[AbsValue],
    formula: &Formula,
) -> Result<bool, Memory>
    requires { IsMade machine.now }
    ensures { IfOk result (λ b. b ≡ may_fail (window machine.now 0) state.now formula.now.prefix formula.now.body) }
{
    let alloc = machine.alloc;
    let nodes = window_nodes(alloc, machine.kept, 0)?;
    let scene = scene_of(machine, 0, state, nodes.as_slice());
    let lists = lists_of(alloc, nodes.as_slice(), formula.prefix)?;
    let b = may_fail_at(alloc, &scene, &[], lists.as_slice(), &formula.body)?;
    Ok(b)
}

/// Whether a piece of a start may be false for some kept nodes.
fn may_fault(
    machine: &AbstractMachine,
    rule: &TermRule,
    pattern: &[AbsNode],
) -> Result<bool, Memory>
    requires { IsMade machine.now }
    ensures { IfOk result (λ b. b ≡ may_fault machine.now rule.now pattern.now) }
{
    let alloc = machine.alloc;
    let fired = fired_of(pattern);
    let nodes = window_nodes(alloc, machine.kept, fired)?;
    let kept = window_nodes(alloc, machine.kept, 0)?;
    let cells = blank_of(machine, fired, nodes.as_slice())?;
    let scene = scene_of(machine, fired, cells.as_slice(), nodes.as_slice());
    let next = scene_of(machine, 0, &[], kept.as_slice());
    let b = pieces_may_fail(alloc, &scene, &next, pattern, rule.ok.as_slice())?;
    Ok(b)
}
