//! Cells of the kept state that a window leaves, each as an edge: what they were, and what they become.

#![tactic(auto, using(crate::proofs::Growing::growing, crate::proofs::StepLemmas::stepping))]

ghost use Rattle.std.specs.Prelude.{◌≡◌, ◌++◌, ◌<◌, length, None, Some, IfOk, IfSome, IfNone};
ghost use Rattle.std.specs.List.{list_all, slice_index_or};
ghost use Rattle.term_core.specs.declared.machine.Update.{Update as UpdateOf};
ghost use Rattle.term_core.specs.Firing.{update_for};
ghost use Rattle.circuit_core.specs.Network.{IsEdge};
ghost use Rattle.circuit_core.specs.Growth.{KeepsEdges};
ghost use Rattle.other_abstract.specs.declared.place.Place.{Place as PlaceOf};
ghost use Rattle.other_abstract.specs.Windows.{same_value};
ghost use Rattle.other_abstract.specs.May.{value_at};
ghost use Rattle.other_abstract.specs.Tests.{may};
ghost use Rattle.other_abstract.specs.Lists.{window_in, IsScene};
ghost use Rattle.other_abstract.specs.Machines.{read_kept};
ghost use Rattle.other_abstract.specs.Stepping.{kept_value, becomes};
ghost use Rattle.bit_encode.specs.MaySets.{HasEdges};
ghost use Rattle.bit_encode.specs.Coding.{HasCells};
ghost use Rattle.bit_encode.specs.Steps.{IsCellIn, TellsBoth};

use crate::agree::agree;
use crate::facts::joined;
use crate::gates::both;
use crate::read::{CodedScene, add_cell};
use crate::set::MaySet;
use crate::term::term_set;
use circuit_core::{Circuit, Edge, Memory};
use other_abstract::node::AbsNode;
use other_abstract::place::Place;
use std::alloc::Global;
use term_core::machine::Update;
use term_core::term::Term;

/// The set of the cell of a family at these nodes.
pub fn cell_set(
    alloc: Global,
    circuit: &mut Circuit,
    scene: &CodedScene,
    family: usize,
    nodes: &[AbsNode],
) -> Result<MaySet, Memory>
    requires scene { IsScene scene.now.window }
    requires cells { HasCells circuit.old scene.now.cells.now }
    ensures cell { IfOk result (λ out. IsCellIn circuit.new scene.now.cells.now
        (window_in scene.now.window) family nodes.now out) }
    ensures edges { IfOk result (λ out. HasEdges circuit.new out) }
    ensures keeps { KeepsEdges circuit.old circuit.new }
{
    let mut out = MaySet::make(alloc);
    add_cell(
        circuit,
        &mut out,
        scene,
        family,
        nodes,
        Circuit::truth(true),
    )?;
    Ok(out)
}

/// Where a cell of the kept state is that of the window, fired nodes read as Other.
fn is_left(
    alloc: Global,
    circuit: &mut Circuit,
    scene: &CodedScene,
    kept: &CodedScene,
    place: &Place,
) -> Result<Edge, Memory>
    requires scene { IsScene scene.now.window }
    requires kept { IsScene kept.now.window }
    requires cells { HasCells circuit.old scene.now.cells.now }
    requires kept_cells { HasCells circuit.old kept.now.cells.now }
    ensures tells { IfOk result (λ e. TellsBoth circuit.new scene.now.cells.now kept.now.cells.now e
        (λ w t. same_value (kept_value (window_in scene.now.window) w place.now)
        (value_at (window_in kept.now.window) t place.now.family place.now.at))) }
    ensures edge { IfOk result (λ e. IsEdge circuit.new e) }
    ensures keeps { KeepsEdges circuit.old circuit.new }
{
    let from = cell_set(alloc, circuit, scene, place.family, place.at.as_slice())?;
    let to = cell_set(alloc, circuit, kept, place.family, place.at.as_slice())?;
    let e = agree(circuit, from.members(), to.members())?;
    Ok(e)
}

/// Where a cell of the kept state is what its update may be in the window, fired nodes read as Other.
fn is_updated(
    alloc: Global,
    circuit: &mut Circuit,
    scene: &CodedScene,
    kept: &CodedScene,
    pattern: &[AbsNode],
    body: &Term,
    place: &Place,
) -> Result<Edge, Memory>
    requires scene { IsScene scene.now.window }
    requires kept { IsScene kept.now.window }
    requires cells { HasCells circuit.old scene.now.cells.now }
    requires kept_cells { HasCells circuit.old kept.now.cells.now }
    ensures tells { IfOk result (λ e. TellsBoth circuit.new scene.now.cells.now kept.now.cells.now e
        (λ w t. may (window_in scene.now.window) w (pattern.now ++ place.now.at) body.now (λ x. same_value (read_kept x)
        (value_at (window_in kept.now.window) t place.now.family place.now.at)))) }
    ensures edge { IfOk result (λ e. IsEdge circuit.new e) }
    ensures keeps { KeepsEdges circuit.old circuit.new }
{
    let mut env = joined(alloc, pattern, place.at.as_slice())?;
    let from = term_set(alloc, circuit, scene, &mut env, body)?;
    let to = cell_set(alloc, circuit, kept, place.family, place.at.as_slice())?;
    let e = agree(circuit, from.members(), to.members())?;
    Ok(e)
}

/// Which update writes the cells of a family, if there is one.
fn update_place(updates: &[Update], family: usize) -> Option<usize>
    ensures within { IfSome result (λ i. i < length updates.now) }
    ensures some { IfSome result (λ i. (d : UpdateOf) → update_for updates.now family ≡ Some (slice_index_or updates.now i d).body) }
    ensures none { IfNone result (update_for updates.now family ≡ None) }
{
    for at in 0..updates.len() {
        if updates[at].family as usize == family {
            return Some(at);
        }
    }
    None
}

/// Where a cell may become what it is in the kept state: what its update may be, or what it was where it has none.
fn becomes(
    alloc: Global,
    circuit: &mut Circuit,
    scene: &CodedScene,
    kept: &CodedScene,
    pattern: &[AbsNode],
    updates: &[Update],
    place: &Place,
) -> Result<Edge, Memory>
    requires scene { IsScene scene.now.window }
    requires kept { IsScene kept.now.window }
    requires cells { HasCells circuit.old scene.now.cells.now }
    requires kept_cells { HasCells circuit.old kept.now.cells.now }
    ensures tells { IfOk result (λ e. TellsBoth circuit.new scene.now.cells.now kept.now.cells.now e
        (λ w t. becomes (window_in kept.now.window) (window_in scene.now.window) w t updates.now pattern.now place.now)) }
    ensures edge { IfOk result (λ e. IsEdge circuit.new e) }
    ensures keeps { KeepsEdges circuit.old circuit.new }
{
    match update_place(updates, place.family) {
        Some(at) => {
            let body = &updates[at].body;
            let e = is_updated(alloc, circuit, scene, kept, pattern, body, place)?;
            Ok(e)
        }
        None => {
            let e = is_left(alloc, circuit, scene, kept, place)?;
            Ok(e)
        }
    }
}

/// Where each of these cells may become what it is in the kept state.
pub fn all_become(
    alloc: Global,
    circuit: &mut Circuit,
    scene: &CodedScene,
    kept: &CodedScene,
    pattern: &[AbsNode],
    updates: &[Update],
    places: &[Place],
) -> Result<Edge, Memory>
    requires scene { IsScene scene.now.window }
    requires kept { IsScene kept.now.window }
    requires cells { HasCells circuit.old scene.now.cells.now }
    requires kept_cells { HasCells circuit.old kept.now.cells.now }
    ensures tells { IfOk result (λ e. TellsBoth circuit.new scene.now.cells.now kept.now.cells.now e
        (λ w t. list_all (becomes (window_in kept.now.window) (window_in scene.now.window) w t updates.now pattern.now)
        places.now)) }
    ensures edge { IfOk result (λ e. IsEdge circuit.new e) }
    ensures keeps { KeepsEdges circuit.old circuit.new }
{
    let mut all = Circuit::truth(true);
    for place in places {
        let one = becomes(alloc, circuit, scene, kept, pattern, updates, place)?;
        all = both(circuit, all, one)?;
    }
    Ok(all)
}

/// Where each of these cells of the kept state is that of the window, fired nodes read as Other.
pub fn all_left(
    alloc: Global,
    circuit: &mut Circuit,
    scene: &CodedScene,
    kept: &CodedScene,
    places: &[Place],
) -> Result<Edge, Memory>
    requires scene { IsScene scene.now.window }
    requires kept { IsScene kept.now.window }
    requires cells { HasCells circuit.old scene.now.cells.now }
    requires kept_cells { HasCells circuit.old kept.now.cells.now }
    ensures tells { IfOk result (λ e. TellsBoth circuit.new scene.now.cells.now kept.now.cells.now e
        (λ w t. list_all (λ (place : PlaceOf). same_value (kept_value (window_in scene.now.window) w place)
        (value_at (window_in kept.now.window) t place.family place.at)) places.now)) }
    ensures edge { IfOk result (λ e. IsEdge circuit.new e) }
    ensures keeps { KeepsEdges circuit.old circuit.new }
{
    let mut all = Circuit::truth(true);
    for place in places {
        let one = is_left(alloc, circuit, scene, kept, place)?;
        all = both(circuit, all, one)?;
    }
    Ok(all)
}
