//! Starts as one edge, and the faults of starts.

#![tactic(auto, using(crate::proofs::Growing::growing, crate::proofs::StartLemmas::starting))]

ghost use Rattle.std.specs.Prelude.{◌≡◌, ◌&&◌, ◌||◌, ◌≤◌, ◌<◌, ℕ, Bool, length, map, All, IfOk, IsTrue};
ghost use Rattle.circuit_core.specs.declared.edge.Edge.{Edge as EdgeOf};
ghost use Rattle.circuit_core.specs.Network.{IsEdge};
ghost use Rattle.circuit_core.specs.Growth.{KeepsEdges};
ghost use Rattle.other_abstract.specs.Machines.{window as window_of};
ghost use Rattle.other_abstract.specs.Making.{IsMade};
ghost use Rattle.other_abstract.specs.Places.{places as places_of};
ghost use Rattle.bit_encode.specs.Codes.{width, number_of};
ghost use Rattle.bit_encode.specs.MaySets.{Agrees};
ghost use Rattle.bit_layout.specs.declared.choice.Choice.{Choice as ChoiceOf};
ghost use Rattle.bit_layout.specs.Choices.{start_choices, passes_at};
ghost use Rattle.bit_layout.specs.Layout.{start_choice_place, bad_place};
ghost use Rattle.bit_layout.specs.Coded.{may_start, may_fault_at, is_start_code, state_is_bad, start_faults, tells_bad_start};
ghost use Rattle.bit_gates.specs.Facts.{IsFact, IsFactWhere, kept_legal};
ghost use Rattle.bit_gates.specs.Inputs.{IsWindowOf, AreBits};

use crate::choosing::with_choice;
use crate::gates::{both, either, same};
use crate::window::{CodedWindow, scene};
use bit_encode::cell::legal;
use bit_encode::facts::some_may_fail;
use bit_encode::laws::codes_show_states;
use bit_layout::choice::{Choice, fired_of};
use bit_starts::blank::blank_state;
use bit_starts::leave::{Starting, all_begin};
use circuit_core::{Circuit, Edge, Memory};
use other_abstract::laws::definitions_are_decided;
use other_abstract::machine::AbstractMachine;
use other_abstract::place::Place;
use other_abstract::state::Pattern;
use std::alloc::Global;

/// Where a start may leave the coded kept state under a pattern.
fn may_start(
    alloc: Global,
    circuit: &mut Circuit,
    machine: &AbstractMachine,
    kept: &CodedWindow,
    places: &[Place],
    choice: &Choice,
) -> Result<Edge, Memory>
    requires made { IsMade machine.now }
    requires kept { IsWindowOf machine.now circuit.old kept.now 0 0 }
    requires places { places.now ≡ places_of (window_of machine.now 0) }
    requires start { choice.now.number < length machine.now.machine.starts }
    ensures holds { IfOk result (λ e. IsFactWhere circuit.new (kept_legal machine.now) e
        (λ x. may_start machine.now x choice.now)) }
    ensures edge { IfOk result (λ e. IsEdge circuit.new e) }
    ensures keeps { KeepsEdges circuit.old circuit.new }
{
    codes_show_states();
    let pattern = choice.pattern.as_slice();
    let fired = fired_of(pattern);
    let blank = blank_state(alloc, machine, fired)?;
    let rule = &machine.machine().starts.as_slice()[choice.number as usize];
    let starting = Starting {
        machine,
        fired,
        pattern,
        updates: rule.updates.as_slice(),
        blank: &blank,
    };
    let kept = scene(machine, kept);
    let e = all_begin(alloc, circuit, &starting, &kept, places)?;
    Ok(e)
}

/// Whether a piece of a start may be false under a pattern.
fn may_fault(alloc: Global, machine: &AbstractMachine, choice: &Choice) -> Result<bool, Memory>
    requires made { IsMade machine.now }
    requires start { choice.now.number < length machine.now.machine.starts }
    requires short { length choice.now.pattern ≤ 3 }
    ensures { IfOk result (λ b. b ≡ may_fault_at machine.now choice.now) }
{
    definitions_are_decided();
    let pattern = Pattern::of(alloc, choice.pattern.as_slice());
    match machine.start_faults(choice.number, &pattern) {
        Ok(b) => Ok(b),
        Err(_) => Err(Memory),
    }
}

/// Where the coded start may leave the coded kept state.
fn any_start(
    alloc: Global,
    circuit: &mut Circuit,
    machine: &AbstractMachine,
    kept: &CodedWindow,
    bits: &[Edge],
    places: &[Place],
    choices: &[Choice],
) -> Result<Edge, Memory>
    requires made { IsMade machine.now }
    requires kept { IsWindowOf machine.now circuit.old kept.now 0 0 }
    requires bits { All (IsEdge circuit.old) bits.now }
    requires places { places.now ≡ places_of (window_of machine.now 0) }
    requires starts { All (λ (c : ChoiceOf). c.number < length machine.now.machine.starts) choices.now }
    ensures holds { IfOk result (λ e. (x : ℕ → Bool) (val : EdgeOf → Bool) → Agrees circuit.new x val
        → IsTrue (kept_legal machine.now x)
        → val e ≡ passes_at (may_start machine.now x) choices.now (number_of (map val bits.now))) }
    ensures edge { IfOk result (λ e. IsEdge circuit.new e) }
    ensures keeps { KeepsEdges circuit.old circuit.new }
{
    let mut any = Circuit::truth(false);
    for at in 0..choices.len() {
        let one = may_start(alloc, circuit, machine, kept, places, &choices[at])?;
        any = with_choice(circuit, any, bits, at, one)?;
    }
    Ok(any)
}

/// Where a piece of the coded start may be false under the coded pattern.
fn any_fault(
    alloc: Global,
    circuit: &mut Circuit,
    machine: &AbstractMachine,
    bits: &[Edge],
    choices: &[Choice],
) -> Result<Edge, Memory>
    requires made { IsMade machine.now }
    requires bits { All (IsEdge circuit.old) bits.now }
    requires starts { All (λ (c : ChoiceOf). c.number < length machine.now.machine.starts) choices.now }
    requires short { All (λ (c : ChoiceOf). length c.pattern ≤ 3) choices.now }
    ensures holds { IfOk result (λ e. (x : ℕ → Bool) (val : EdgeOf → Bool) → Agrees circuit.new x val
        → val e ≡ passes_at (may_fault_at machine.now) choices.now (number_of (map val bits.now))) }
    ensures edge { IfOk result (λ e. IsEdge circuit.new e) }
    ensures keeps { KeepsEdges circuit.old circuit.new }
{
    let mut any = Circuit::truth(false);
    for at in 0..choices.len() {
        let faults = may_fault(alloc, machine, &choices[at])?;
        any = with_choice(circuit, any, bits, at, Circuit::truth(faults))?;
    }
    Ok(any)
}

/// Where the kept state violates a formula, or a piece of the coded start may be false under the coded pattern.
fn start_is_bad(
    alloc: Global,
    circuit: &mut Circuit,
    machine: &AbstractMachine,
    kept: &CodedWindow,
    bits: &[Edge],
    choices: &[Choice],
) -> Result<Edge, Memory>
    requires made { IsMade machine.now }
    requires kept { IsWindowOf machine.now circuit.old kept.now 0 0 }
    requires bits { AreBits circuit.old bits.now (start_choice_place machine.now) (width (length choices.now)) }
    requires choices { choices.now ≡ start_choices machine.now }
    requires starts { All (λ (c : ChoiceOf). c.number < length machine.now.machine.starts) choices.now }
    requires short { All (λ (c : ChoiceOf). length c.pattern ≤ 3) choices.now }
    ensures holds { IfOk result (λ e. IsFactWhere circuit.new (kept_legal machine.now) e
        (λ x. state_is_bad machine.now x || start_faults machine.now x)) }
    ensures edge { IfOk result (λ e. IsEdge circuit.new e) }
    ensures keeps { KeepsEdges circuit.old circuit.new }
{
    codes_show_states();
    let state = scene(machine, kept);
    let violates = some_may_fail(alloc, circuit, &state, machine.formulas())?;
    let faults = any_fault(alloc, circuit, machine, bits, choices)?;
    let e = either(circuit, violates, faults)?;
    Ok(e)
}

/// Where the assignment codes a start, and the bit for bad states says whether it is bad.
pub fn start_edge(
    alloc: Global,
    circuit: &mut Circuit,
    machine: &AbstractMachine,
    kept: &CodedWindow,
    bad: Edge,
    bits: &[Edge],
    places: &[Place],
    choices: &[Choice],
) -> Result<Edge, Memory>
    requires made { IsMade machine.now }
    requires kept { IsWindowOf machine.now circuit.old kept.now 0 0 }
    requires bad_edge { IsEdge circuit.old bad }
    requires bad { IsFact circuit.old bad (λ x. x (bad_place machine.now)) }
    requires bits { AreBits circuit.old bits.now (start_choice_place machine.now) (width (length choices.now)) }
    requires places { places.now ≡ places_of (window_of machine.now 0) }
    requires choices { choices.now ≡ start_choices machine.now }
    requires starts { All (λ (c : ChoiceOf). c.number < length machine.now.machine.starts) choices.now }
    requires short { All (λ (c : ChoiceOf). length c.pattern ≤ 3) choices.now }
    ensures holds { IfOk result (λ e. IsFact circuit.new e
        (λ x. is_start_code machine.now x && tells_bad_start machine.now x)) }
    ensures edge { IfOk result (λ e. IsEdge circuit.new e) }
    ensures keeps { KeepsEdges circuit.old circuit.new }
{
    codes_show_states();
    let legal = legal(circuit, kept.cells.as_slice())?;
    let starts = any_start(alloc, circuit, machine, kept, bits, places, choices)?;
    let is_bad = start_is_bad(alloc, circuit, machine, kept, bits, choices)?;
    let told = same(circuit, bad, is_bad)?;
    let inner = both(circuit, starts, told)?;
    let e = both(circuit, legal, inner)?;
    Ok(e)
}
