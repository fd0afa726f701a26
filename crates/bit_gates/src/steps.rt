//! Steps as one edge.

#![tactic(auto, using(crate::proofs::Growing::growing, crate::proofs::StepLemmas::stepping))]

ghost use Rattle.std.specs.Prelude.{◌≡◌, ◌&&◌, ◌<◌, ℕ, Bool, length, map, All, IfOk, IsTrue};
ghost use Rattle.circuit_core.specs.declared.edge.Edge.{Edge as EdgeOf};
ghost use Rattle.circuit_core.specs.Network.{IsEdge};
ghost use Rattle.circuit_core.specs.Growth.{KeepsEdges};
ghost use Rattle.other_abstract.specs.Lists.{window_in, IsScene};
ghost use Rattle.other_abstract.specs.Machines.{window as window_of, fired_of};
ghost use Rattle.other_abstract.specs.Making.{IsMade};
ghost use Rattle.other_abstract.specs.Places.{places as places_of};
ghost use Rattle.other_abstract.specs.Stepping.{all_may_hold};
ghost use Rattle.bit_encode.specs.Codes.{width, number_of};
ghost use Rattle.bit_encode.specs.MaySets.{Agrees};
ghost use Rattle.bit_encode.specs.Coding.{HasCells};
ghost use Rattle.bit_encode.specs.Steps.{TellsBoth, TellsSides, are_left, fires};
ghost use Rattle.bit_layout.specs.Choices.{step_choices, passes_at};
ghost use Rattle.bit_layout.specs.Layout.{bad_place, next_place, window_place, step_choice_place, bad_next_place};
ghost use Rattle.bit_layout.specs.Coded.{may_step, is_step_code, tells_bad, tells_bad_next};
ghost use Rattle.bit_gates.specs.Facts.{IsFact, IsFactWhere, both_legal};
ghost use Rattle.bit_gates.specs.Inputs.{IsWindowOf, AreWindows, AreBits, IsOpened, AreOpened, AreWithin};

use crate::choosing::with_choice;
use crate::gates::{both, same};
use crate::window::{CodedWindow, Opened, asked, scene};
use bit_encode::cell::legal;
use bit_encode::facts::{may_be_at, some_may_fail};
use bit_encode::fire::Sides;
use bit_encode::laws::{codes_show_states, firing_is_a_step};
use bit_encode::step::all_become;
use bit_layout::choice::{Choice, fired_of};
use circuit_core::{Circuit, Edge, Memory};
use other_abstract::machine::AbstractMachine;
use other_abstract::node::AbsNode;
use other_abstract::place::Place;
use std::alloc::Global;
use term_core::machine::TermRule;

/// The coded kept states before and after a step, the windows, and what each window asks by itself.
#[derive(Clone, Copy)]
pub struct Stage<'a> {
    pub kept: &'a CodedWindow,
    pub next: &'a CodedWindow,
    pub windows: &'a [CodedWindow],
    pub opened: &'a [Opened],
}

/// Where a rule may fire under a pattern in a window that is ready.
fn fires(
    alloc: Global,
    circuit: &mut Circuit,
    machine: &AbstractMachine,
    sides: &Sides,
    ready: Edge,
    rule: &TermRule,
    pattern: &[AbsNode],
    places: &[Place],
) -> Result<Edge, Memory>
    requires wide { IsScene sides.now.wide.window }
    requires after { IsScene sides.now.after.window }
    requires wide_cells { HasCells circuit.old sides.now.wide.cells.now }
    requires after_cells { HasCells circuit.old sides.now.after.cells.now }
    requires edge { IsEdge circuit.old ready }
    requires ready { TellsBoth circuit.old sides.now.wide.cells.now sides.now.before.cells.now ready
        (λ w s. are_left (window_in sides.now.wide.window) (window_in sides.now.before.window) w s places.now
        && all_may_hold (window_in sides.now.wide.window) w machine.now.formulas) }
    ensures tells { IfOk result (λ e. TellsSides circuit.new sides.now.wide.cells.now sides.now.before.cells.now
        sides.now.after.cells.now e (fires (window_in sides.now.wide.window) (window_in sides.now.before.window)
        (window_in sides.now.after.window) machine.now.formulas rule.now pattern.now places.now)) }
    ensures edge { IfOk result (λ e. IsEdge circuit.new e) }
    ensures keeps { KeepsEdges circuit.old circuit.new }
{
    let guard = may_be_at(alloc, circuit, &sides.wide, pattern, &[], &rule.guard, true)?;
    let updates = rule.updates.as_slice();
    let next = all_become(
        alloc,
        circuit,
        &sides.wide,
        &sides.after,
        pattern,
        updates,
        places,
    )?;
    let goes = both(circuit, guard, next)?;
    let e = both(circuit, ready, goes)?;
    Ok(e)
}

/// Where the code of a window is legal, and firing a rule under a pattern may lead from the one coded kept state to
/// the other by the coded state of the window.
fn may_step(
    alloc: Global,
    circuit: &mut Circuit,
    machine: &AbstractMachine,
    stage: &Stage,
    wide: &CodedWindow,
    opened: Opened,
    places: &[Place],
    choice: &Choice,
) -> Result<Edge, Memory>
    requires made { IsMade machine.now }
    requires kept { IsWindowOf machine.now circuit.old stage.now.kept.now 0 0 }
    requires next { IsWindowOf machine.now circuit.old stage.now.next.now 0 (next_place machine.now) }
    requires wide { IsWindowOf machine.now circuit.old wide.now (fired_of choice.now.pattern)
        (window_place machine.now (fired_of choice.now.pattern)) }
    requires opened { IsOpened machine.now circuit.old opened wide.now.cells.items stage.now.kept.now.cells.items
        (fired_of choice.now.pattern) (window_place machine.now (fired_of choice.now.pattern)) }
    requires places { places.now ≡ places_of (window_of machine.now 0) }
    requires rule { choice.now.number < length machine.now.machine.rules }
    ensures holds { IfOk result (λ e. IsFactWhere circuit.new (both_legal machine.now) e
        (λ x. may_step machine.now x choice.now)) }
    ensures edge { IfOk result (λ e. IsEdge circuit.new e) }
    ensures keeps { KeepsEdges circuit.old circuit.new }
{
    firing_is_a_step();
    let rule = &machine.machine().rules.as_slice()[choice.number as usize];
    let sides = Sides {
        wide: scene(machine, wide),
        before: scene(machine, stage.kept),
        after: scene(machine, stage.next),
    };
    let pattern = choice.pattern.as_slice();
    let fired = fires(
        alloc,
        circuit,
        machine,
        &sides,
        opened.ready,
        rule,
        pattern,
        places,
    )?;
    let e = both(circuit, opened.legal, fired)?;
    Ok(e)
}

/// What each window asks by itself.
pub fn open_all(
    alloc: Global,
    circuit: &mut Circuit,
    machine: &AbstractMachine,
    kept: &CodedWindow,
    windows: &[CodedWindow],
    places: &[Place],
) -> Result<Vec<Opened>, Memory>
    requires made { IsMade machine.now }
    requires kept { IsWindowOf machine.now circuit.old kept.now 0 0 }
    requires windows { AreWindows machine.now circuit.old windows.now (length windows.now) }
    requires places { places.now ≡ places_of (window_of machine.now 0) }
    ensures opened { IfOk result (λ out. AreOpened machine.now circuit.new out.items windows.now kept.now.cells.items
        (length windows.now)) }
    ensures keeps { KeepsEdges circuit.old circuit.new }
{
    codes_show_states();
    let mut out = Vec::new(alloc);
    let before = scene(machine, kept);
    for at in 0..windows.len() {
        let wide = scene(machine, &windows[at]);
        let one = asked(alloc, circuit, machine, &wide, &before, places)?;
        out.push(one)?;
    }
    Ok(out)
}

/// Where the coded choice may step from the one coded kept state to the other.
fn any_step(
    alloc: Global,
    circuit: &mut Circuit,
    machine: &AbstractMachine,
    stage: &Stage,
    bits: &[Edge],
    places: &[Place],
    choices: &[Choice],
) -> Result<Edge, Memory>
    requires made { IsMade machine.now }
    requires kept { IsWindowOf machine.now circuit.old stage.now.kept.now 0 0 }
    requires next { IsWindowOf machine.now circuit.old stage.now.next.now 0 (next_place machine.now) }
    requires windows { AreWindows machine.now circuit.old stage.now.windows.now (length stage.now.windows.now) }
    requires opened { AreOpened machine.now circuit.old stage.now.opened.now stage.now.windows.now
        stage.now.kept.now.cells.items (length stage.now.windows.now) }
    requires bits { All (IsEdge circuit.old) bits.now }
    requires places { places.now ≡ places_of (window_of machine.now 0) }
    requires within { AreWithin (length machine.now.machine.rules) (length stage.now.windows.now) choices.now }
    ensures holds { IfOk result (λ e. (x : ℕ → Bool) (val : EdgeOf → Bool) → Agrees circuit.new x val
        → IsTrue (both_legal machine.now x)
        → val e ≡ passes_at (may_step machine.now x) choices.now (number_of (map val bits.now))) }
    ensures edge { IfOk result (λ e. IsEdge circuit.new e) }
    ensures keeps { KeepsEdges circuit.old circuit.new }
{
    let mut any = Circuit::truth(false);
    for at in 0..choices.len() {
        let choice = &choices[at];
        let fired = fired_of(choice.pattern.as_slice()) as usize;
        let wide = &stage.windows[fired];
        let open_now = stage.opened[fired];
        let one = may_step(
            alloc, circuit, machine, stage, wide, open_now, places, choice,
        )?;
        any = with_choice(circuit, any, bits, at, one)?;
    }
    Ok(any)
}

/// Where the bit for the state before a step says whether it violates a formula.
fn told(
    alloc: Global,
    circuit: &mut Circuit,
    machine: &AbstractMachine,
    kept: &CodedWindow,
    bit: Edge,
) -> Result<Edge, Memory>
    requires made { IsMade machine.now }
    requires kept { IsWindowOf machine.now circuit.old kept.now 0 0 }
    requires edge { IsEdge circuit.old bit }
    requires bit { IsFact circuit.old bit (λ x. x (bad_place machine.now)) }
    ensures holds { IfOk result (λ e. IsFactWhere circuit.new (both_legal machine.now) e (tells_bad machine.now)) }
    ensures edge { IfOk result (λ e. IsEdge circuit.new e) }
    ensures keeps { KeepsEdges circuit.old circuit.new }
{
    codes_show_states();
    let state = scene(machine, kept);
    let violates = some_may_fail(alloc, circuit, &state, machine.formulas())?;
    let e = same(circuit, bit, violates)?;
    Ok(e)
}

/// Where the bit for the state after a step says whether it violates a formula.
fn told_next(
    alloc: Global,
    circuit: &mut Circuit,
    machine: &AbstractMachine,
    kept: &CodedWindow,
    bit: Edge,
) -> Result<Edge, Memory>
    requires made { IsMade machine.now }
    requires kept { IsWindowOf machine.now circuit.old kept.now 0 (next_place machine.now) }
    requires edge { IsEdge circuit.old bit }
    requires bit { IsFact circuit.old bit (λ x. x (bad_next_place machine.now)) }
    ensures holds { IfOk result (λ e. IsFactWhere circuit.new (both_legal machine.now) e (tells_bad_next machine.now)) }
    ensures edge { IfOk result (λ e. IsEdge circuit.new e) }
    ensures keeps { KeepsEdges circuit.old circuit.new }
{
    codes_show_states();
    let state = scene(machine, kept);
    let violates = some_may_fail(alloc, circuit, &state, machine.formulas())?;
    let e = same(circuit, bit, violates)?;
    Ok(e)
}

/// The bits that say whether the states before and after a step are bad.
#[derive(Clone, Copy)]
pub struct BadBits {
    pub now: Edge,
    pub next: Edge,
}

/// Where the assignment codes a step, and the bits for bad states say whether the states before it and after it are.
pub fn step_edge(
    alloc: Global,
    circuit: &mut Circuit,
    machine: &AbstractMachine,
    stage: &Stage,
    bad: BadBits,
    bits: &[Edge],
    places: &[Place],
    choices: &[Choice],
) -> Result<Edge, Memory>
    requires made { IsMade machine.now }
    requires kept { IsWindowOf machine.now circuit.old stage.now.kept.now 0 0 }
    requires next { IsWindowOf machine.now circuit.old stage.now.next.now 0 (next_place machine.now) }
    requires windows { AreWindows machine.now circuit.old stage.now.windows.now (length stage.now.windows.now) }
    requires opened { AreOpened machine.now circuit.old stage.now.opened.now stage.now.windows.now
        stage.now.kept.now.cells.items (length stage.now.windows.now) }
    requires bad_edge { IsEdge circuit.old bad.now }
    requires bad { IsFact circuit.old bad.now (λ x. x (bad_place machine.now)) }
    requires bad_next_edge { IsEdge circuit.old bad.next }
    requires bad_next { IsFact circuit.old bad.next (λ x. x (bad_next_place machine.now)) }
    requires bits { AreBits circuit.old bits.now (step_choice_place machine.now) (width (length choices.now)) }
    requires places { places.now ≡ places_of (window_of machine.now 0) }
    requires choices { choices.now ≡ step_choices machine.now }
    requires within { AreWithin (length machine.now.machine.rules) (length stage.now.windows.now) choices.now }
    ensures holds { IfOk result (λ e. IsFact circuit.new e
        (λ x. is_step_code machine.now x && (tells_bad machine.now x && tells_bad_next machine.now x))) }
    ensures edge { IfOk result (λ e. IsEdge circuit.new e) }
    ensures keeps { KeepsEdges circuit.old circuit.new }
{
    codes_show_states();
    let before = legal(circuit, stage.kept.cells.as_slice())?;
    let after = legal(circuit, stage.next.cells.as_slice())?;
    let steps = any_step(alloc, circuit, machine, stage, bits, places, choices)?;
    let now = told(alloc, circuit, machine, stage.kept, bad.now)?;
    let next = told_next(alloc, circuit, machine, stage.next, bad.next)?;
    let tells = both(circuit, now, next)?;
    let rest = both(circuit, steps, tells)?;
    let legal = both(circuit, before, after)?;
    let e = both(circuit, legal, rest)?;
    Ok(e)
}
