//! What a start may leave, as an edge over the coded kept state.

#![tactic(auto, using(crate::proofs::Growing::growing, crate::proofs::LeaveLemmas::leaving))]

ghost use Rattle.std.specs.Prelude.{◌≡◌, ◌++◌, ◌<◌, ◌&&◌, ◌||◌, ℕ, Bool, length, None, Some, IfOk, IfSome, IfNone};
ghost use Rattle.std.specs.List.{list_all, list_any, slice_index_or};
ghost use Rattle.term_core.specs.declared.machine.Update.{Update as UpdateOf};
ghost use Rattle.term_core.specs.Firing.{update_for};
ghost use Rattle.circuit_core.specs.declared.edge.Edge.{Edge as EdgeOf};
ghost use Rattle.circuit_core.specs.Network.{IsEdge};
ghost use Rattle.circuit_core.specs.Growth.{KeepsEdges};
ghost use Rattle.other_abstract.specs.declared.value.AbsValue.{AbsValue as Abs};
ghost use Rattle.other_abstract.specs.Windows.{same_value};
ghost use Rattle.other_abstract.specs.May.{value_at};
ghost use Rattle.other_abstract.specs.Tests.{may};
ghost use Rattle.other_abstract.specs.Lists.{window_in, IsScene};
ghost use Rattle.other_abstract.specs.Machines.{window, blank, read_kept};
ghost use Rattle.other_abstract.specs.Making.{IsMade};
ghost use Rattle.other_abstract.specs.Stepping.{may_begin, begins};
ghost use Rattle.bit_encode.specs.MaySets.{Agrees, HasEdges};
ghost use Rattle.bit_encode.specs.Coding.{HasCells};
ghost use Rattle.bit_encode.specs.Terms.{TellsIn};
ghost use Rattle.bit_starts.specs.Starts.{settles};

use bit_encode::read::CodedScene;
use bit_encode::set::{Possible, edge_of};
use bit_encode::step::cell_set;
use circuit_core::{Circuit, Edge, Memory};
use other_abstract::machine::AbstractMachine;
use other_abstract::node::AbsNode;
use other_abstract::place::Place;
use other_abstract::places;
use other_abstract::scene::Scene;
use other_abstract::set::ValueSet;
use other_abstract::starting::{blank_of, settled};
use other_abstract::state::AbsState;
use other_abstract::value::AbsValue;
use std::alloc::Global;
use term_core::machine::Update;
use term_core::term::Term;

/// A start of a machine: its pattern with the fired nodes that it uses, its updates, and the state of the window of
/// the pattern before anything is written.
#[derive(Clone, Copy)]
pub struct Starting<'a> {
    pub machine: &'a AbstractMachine,
    pub fired: u8,
    pub pattern: &'a [AbsNode],
    pub updates: &'a [Update],
    pub blank: &'a AbsState,
}

/// A value as the kept nodes see it: a fired node is read as Other.
fn read_kept(value: AbsValue) -> AbsValue
    ensures { result ≡ read_kept value }
{
    match value {
        AbsValue::Node(AbsNode::Fired(_)) => AbsValue::Node(AbsNode::Other),
        _ => value,
    }
}

/// The disjunction.
fn either(circuit: &mut Circuit, a: Edge, b: Edge) -> Result<Edge, Memory>
    requires a_edge { IsEdge circuit.old a }
    requires b_edge { IsEdge circuit.old b }
    ensures edge { IfOk result (λ e. IsEdge circuit.new e) }
    ensures value { IfOk result (λ e. (x : ℕ → Bool) (val : EdgeOf → Bool) → Agrees circuit.new x val
        → val e ≡ (val a || val b)) }
    ensures keeps { KeepsEdges circuit.old circuit.new }
{
    let e = circuit.or(a, b)?;
    Ok(e)
}

/// The conjunction.
fn both(circuit: &mut Circuit, a: Edge, b: Edge) -> Result<Edge, Memory>
    requires a_edge { IsEdge circuit.old a }
    requires b_edge { IsEdge circuit.old b }
    ensures edge { IfOk result (λ e. IsEdge circuit.new e) }
    ensures value { IfOk result (λ e. (x : ℕ → Bool) (val : EdgeOf → Bool) → Agrees circuit.new x val
        → val e ≡ (val a && val b)) }
    ensures keeps { KeepsEdges circuit.old circuit.new }
{
    let e = circuit.and(a, b)?;
    Ok(e)
}

/// One more value that a cell may get.
fn with_settled(
    circuit: &mut Circuit,
    any: Edge,
    kept: &Scene,
    family: usize,
    value: AbsValue,
    to: &[Possible],
) -> Result<Edge, Memory>
    requires any { IsEdge circuit.old any }
    requires to { HasEdges circuit.old to.now }
    ensures edge { IfOk result (λ e. IsEdge circuit.new e) }
    ensures value { IfOk result (λ e. (x : ℕ → Bool) (val : EdgeOf → Bool) → Agrees circuit.new x val
        → val e ≡ (val any || settles val (window_in kept.now) family to.now value)) }
    ensures keeps { KeepsEdges circuit.old circuit.new }
{
    let new = settled(kept, family, read_kept(value));
    let one = edge_of(circuit, to, new)?;
    let e = either(circuit, any, one)?;
    Ok(e)
}

/// Where a cell has one of these values, fired nodes read as Other, and undefined where it cannot have the value.
fn has_settled(
    circuit: &mut Circuit,
    kept: &Scene,
    family: usize,
    values: &[AbsValue],
    to: &[Possible],
) -> Result<Edge, Memory>
    requires to { HasEdges circuit.old to.now }
    ensures edge { IfOk result (λ e. IsEdge circuit.new e) }
    ensures value { IfOk result (λ e. (x : ℕ → Bool) (val : EdgeOf → Bool) → Agrees circuit.new x val
        → val e ≡ list_any (settles val (window_in kept.now) family to.now) values.now) }
    ensures keeps { KeepsEdges circuit.old circuit.new }
{
    let mut any = Circuit::truth(false);
    for value in values {
        any = with_settled(circuit, any, kept, family, *value, to)?;
    }
    Ok(any)
}

/// The values that an update may have before anything is written.
fn new_values(
    alloc: Global,
    starting: &Starting,
    body: &Term,
    at: &[AbsNode],
) -> Result<ValueSet, Memory>
    requires made { IsMade starting.now.machine.now }
    requires blank { starting.now.blank.now.values ≡ blank (window starting.now.machine.now starting.now.fired) }
    ensures { IfOk result (λ out. (p : Abs → Bool) → list_any p out
        ≡ may (window starting.now.machine.now starting.now.fired)
        (blank (window starting.now.machine.now starting.now.fired))
        (starting.now.pattern.now ++ at.now) body.now p) }
{
    let env = match places::joined(alloc, starting.pattern, at) {
        Ok(env) => env,
        Err(_) => return Err(Memory),
    };
    let fired = starting.fired;
    let found = starting
        .machine
        .may(alloc, starting.blank, fired, env.as_slice(), body);
    let values = match found {
        Ok(values) => values,
        Err(_) => return Err(Memory),
    };
    Ok(values)
}

/// Which update writes the cells of a family, if there is one.
fn update_place(updates: &[Update], family: usize) -> Option<usize>
    ensures within { IfSome result (λ i. i < length updates.now) }
    ensures some { IfSome result (λ i. (d : UpdateOf) → update_for updates.now family ≡ Some (slice_index_or updates.now i d).body) }
    ensures none { IfNone result (update_for updates.now family ≡ None) }
{
    for at in 0..updates.len() {
        if updates[at].family as usize == family {
            return Some(at);
        }
    }
    None
}

/// Where a cell of the kept state has a value that its update may give it.
fn is_given(
    alloc: Global,
    circuit: &mut Circuit,
    starting: &Starting,
    kept: &CodedScene,
    body: &Term,
    place: &Place,
) -> Result<Edge, Memory>
    requires made { IsMade starting.now.machine.now }
    requires blank { starting.now.blank.now.values ≡ blank (window starting.now.machine.now starting.now.fired) }
    requires kept { IsScene kept.now.window }
    requires cells { HasCells circuit.old kept.now.cells.now }
    ensures tells { IfOk result (λ e. TellsIn circuit.new kept.now.cells.now e
        (λ t. may_begin (window_in kept.now.window) (window starting.now.machine.now starting.now.fired)
        starting.now.pattern.now (Some body.now) place.now
        (value_at (window_in kept.now.window) t place.now.family place.now.at))) }
    ensures edge { IfOk result (λ e. IsEdge circuit.new e) }
    ensures keeps { KeepsEdges circuit.old circuit.new }
{
    let found = new_values(alloc, starting, body, place.at.as_slice())?;
    let to = cell_set(alloc, circuit, kept, place.family, place.at.as_slice())?;
    let e = has_settled(
        circuit,
        &kept.window,
        place.family,
        found.values(),
        to.members(),
    )?;
    Ok(e)
}

/// Where a cell of the kept state is as it was before anything was written.
fn is_blank(
    alloc: Global,
    circuit: &mut Circuit,
    starting: &Starting,
    kept: &CodedScene,
    place: &Place,
) -> Result<Edge, Memory>
    requires kept { IsScene kept.now.window }
    requires cells { HasCells circuit.old kept.now.cells.now }
    ensures tells { IfOk result (λ e. TellsIn circuit.new kept.now.cells.now e
        (λ t. may_begin (window_in kept.now.window) (window starting.now.machine.now starting.now.fired)
        starting.now.pattern.now None place.now
        (value_at (window_in kept.now.window) t place.now.family place.now.at))) }
    ensures edge { IfOk result (λ e. IsEdge circuit.new e) }
    ensures keeps { KeepsEdges circuit.old circuit.new }
{
    let families = starting.machine.machine().families.as_slice();
    let old = blank_of(families, place.family);
    let to = cell_set(alloc, circuit, kept, place.family, place.at.as_slice())?;
    let e = edge_of(circuit, to.members(), old)?;
    Ok(e)
}

/// Where a cell of the kept state has a value that the start may give it.
fn begins(
    alloc: Global,
    circuit: &mut Circuit,
    starting: &Starting,
    kept: &CodedScene,
    place: &Place,
) -> Result<Edge, Memory>
    requires made { IsMade starting.now.machine.now }
    requires blank { starting.now.blank.now.values ≡ blank (window starting.now.machine.now starting.now.fired) }
    requires kept { IsScene kept.now.window }
    requires cells { HasCells circuit.old kept.now.cells.now }
    ensures tells { IfOk result (λ e. TellsIn circuit.new kept.now.cells.now e
        (λ t. begins (window_in kept.now.window) (window starting.now.machine.now starting.now.fired) t
        starting.now.updates.now starting.now.pattern.now place.now)) }
    ensures edge { IfOk result (λ e. IsEdge circuit.new e) }
    ensures keeps { KeepsEdges circuit.old circuit.new }
{
    match update_place(starting.updates, place.family) {
        Some(at) => {
            let body = &starting.updates[at].body;
            let e = is_given(alloc, circuit, starting, kept, body, place)?;
            Ok(e)
        }
        None => {
            let e = is_blank(alloc, circuit, starting, kept, place)?;
            Ok(e)
        }
    }
}

/// Where each of these cells of the kept state has a value that the start may give it.
pub fn all_begin(
    alloc: Global,
    circuit: &mut Circuit,
    starting: &Starting,
    kept: &CodedScene,
    places: &[Place],
) -> Result<Edge, Memory>
    requires made { IsMade starting.now.machine.now }
    requires blank { starting.now.blank.now.values ≡ blank (window starting.now.machine.now starting.now.fired) }
    requires kept { IsScene kept.now.window }
    requires cells { HasCells circuit.old kept.now.cells.now }
    ensures tells { IfOk result (λ e. TellsIn circuit.new kept.now.cells.now e
        (λ t. list_all (begins (window_in kept.now.window) (window starting.now.machine.now starting.now.fired) t
        starting.now.updates.now starting.now.pattern.now) places.now)) }
    ensures edge { IfOk result (λ e. IsEdge circuit.new e) }
    ensures keeps { KeepsEdges circuit.old circuit.new }
{
    let mut all = Circuit::truth(true);
    for place in places {
        let one = begins(alloc, circuit, starting, kept, place)?;
        all = both(circuit, all, one)?;
    }
    Ok(all)
}
