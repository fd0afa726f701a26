//! What reads may be, by the sets of the cells of a window.

#![tactic(auto, using(crate::proofs::Growing::growing, crate::proofs::Gaining::gaining, crate::proofs::ReadLemmas::reading))]

ghost use Rattle.std.specs.Prelude.{◌≡◌, ◌&&◌, ◌||◌, ℕ, Bool, IfOk, OnOk};
ghost use Rattle.std.specs.List.{list_any};
ghost use Rattle.circuit_core.specs.declared.edge.Edge.{Edge as EdgeOf};
ghost use Rattle.circuit_core.specs.Network.{IsEdge};
ghost use Rattle.circuit_core.specs.Growth.{KeepsEdges};
ghost use Rattle.other_abstract.specs.declared.value.AbsValue.{AbsValue as Abs};
ghost use Rattle.other_abstract.specs.Tests.{any_values};
ghost use Rattle.other_abstract.specs.Lists.{window_in, IsScene};
ghost use Rattle.bit_encode.specs.MaySets.{Agrees, HasEdges, held};
ghost use Rattle.bit_encode.specs.Coding.{HasCells};
ghost use Rattle.bit_encode.specs.Leads.{held_lead, HasLeadEdges, placed_set, set_at, set_passes, read_held};

use crate::combine::{add_all, add_values};
use crate::leads::PossibleLead;
use crate::placing::cell_place;
use crate::set::MaySet;
use crate::values::any_values;
use circuit_core::{Circuit, Edge, Memory};
use other_abstract::lead::Lead;
use other_abstract::node::AbsNode;
use other_abstract::scene::Scene;
use other_abstract::value::AbsValue;
use std::alloc::Global;

/// A window, and a set for each of its cells. The values that the window itself has for its cells are not
/// looked at.
#[derive(Clone, Copy)]
pub struct CodedScene<'a> {
    pub window: Scene<'a>,
    pub cells: &'a [MaySet],
}

/// Adds what the cell at a place may be, under an edge; undefined where there is none.
fn add_placed(
    circuit: &mut Circuit,
    out: &mut MaySet,
    cells: &[MaySet],
    place: Option<usize>,
    edge: Edge,
) -> Result<(), Memory>
    requires cells { HasCells circuit.old cells.now }
    requires edge { IsEdge circuit.old edge }
    requires edges { HasEdges circuit.old out.old }
    ensures edges { OnOk result (HasEdges circuit.new out.new) }
    ensures value { OnOk result ((x : ℕ → Bool) (val : EdgeOf → Bool) (p : Abs → Bool)
        → Agrees circuit.new x val
        → held val p out.new ≡ (held val p out.old || (set_passes val p (placed_set cells.now place) && val edge))) }
    ensures keeps { KeepsEdges circuit.old circuit.new }
{
    match place {
        Some(place) => {
            if place < cells.len() {
                add_all(circuit, out, edge, cells[place].members())?;
                Ok(())
            } else {
                out.add(circuit, AbsValue::Undefined, edge)?;
                Ok(())
            }
        }
        None => {
            out.add(circuit, AbsValue::Undefined, edge)?;
            Ok(())
        }
    }
}

/// Adds what the cell of a family at these nodes may be, under an edge.
pub(crate) fn add_cell(
    circuit: &mut Circuit,
    out: &mut MaySet,
    scene: &CodedScene,
    family: usize,
    nodes: &[AbsNode],
    edge: Edge,
) -> Result<(), Memory>
    requires scene { IsScene scene.now.window }
    requires cells { HasCells circuit.old scene.now.cells.now }
    requires edge { IsEdge circuit.old edge }
    requires edges { HasEdges circuit.old out.old }
    ensures edges { OnOk result (HasEdges circuit.new out.new) }
    ensures value { OnOk result ((x : ℕ → Bool) (val : EdgeOf → Bool) (p : Abs → Bool)
        → Agrees circuit.new x val → held val p out.new ≡ (held val p out.old
        || (set_passes val p (set_at (window_in scene.now.window) scene.now.cells.now family nodes.now) && val edge))) }
    ensures keeps { KeepsEdges circuit.old circuit.new }
{
    let place = cell_place(&scene.window, family, nodes);
    add_placed(circuit, out, scene.cells, place, edge)?;
    Ok(())
}

/// Adds any value of a family, undefined included, under an edge.
fn add_any(
    alloc: Global,
    circuit: &mut Circuit,
    out: &mut MaySet,
    scene: &Scene,
    family: u32,
    edge: Edge,
) -> Result<(), Memory>
    requires scene { IsScene scene.now }
    requires edge { IsEdge circuit.old edge }
    requires edges { HasEdges circuit.old out.old }
    ensures edges { OnOk result (HasEdges circuit.new out.new) }
    ensures value { OnOk result ((x : ℕ → Bool) (val : EdgeOf → Bool) (p : Abs → Bool)
        → Agrees circuit.new x val → held val p out.new
        ≡ (held val p out.old || (list_any p (any_values (window_in scene.now) family) && val edge))) }
    ensures keeps { KeepsEdges circuit.old circuit.new }
{
    let values = any_values(alloc, scene, family)?;
    add_values(circuit, out, edge, values.as_slice())?;
    Ok(())
}

/// Adds what a read may be where its indices lead, under the edge of that.
fn add_read(
    alloc: Global,
    circuit: &mut Circuit,
    out: &mut MaySet,
    scene: &CodedScene,
    family: u32,
    one: &PossibleLead,
) -> Result<(), Memory>
    requires scene { IsScene scene.now.window }
    requires cells { HasCells circuit.old scene.now.cells.now }
    requires edge { IsEdge circuit.old one.now.edge }
    requires edges { HasEdges circuit.old out.old }
    ensures edges { OnOk result (HasEdges circuit.new out.new) }
    ensures value { OnOk result ((x : ℕ → Bool) (val : EdgeOf → Bool) (p : Abs → Bool)
        → Agrees circuit.new x val → held val p out.new ≡ (held val p out.old
        || (read_held val scene.now.cells.now (window_in scene.now.window) family p one.now.lead && val one.now.edge))) }
    ensures keeps { KeepsEdges circuit.old circuit.new }
{
    match &one.lead {
        Lead::At(nodes) => {
            add_cell(
                circuit,
                out,
                scene,
                family as usize,
                nodes.as_slice(),
                one.edge,
            )?;
            Ok(())
        }
        Lead::Anywhere => {
            add_any(alloc, circuit, out, &scene.window, family, one.edge)?;
            Ok(())
        }
        Lead::Nowhere => {
            out.add(circuit, AbsValue::Undefined, one.edge)?;
            Ok(())
        }
    }
}

/// What a read may be, wherever its indices may lead: a cell at window nodes is what its set says, some cell at
/// Other is any value of its family, and no cell is undefined.
pub fn read(
    alloc: Global,
    circuit: &mut Circuit,
    scene: &CodedScene,
    family: u32,
    leads: &[PossibleLead],
) -> Result<MaySet, Memory>
    requires scene { IsScene scene.now.window }
    requires cells { HasCells circuit.old scene.now.cells.now }
    requires leads { HasLeadEdges circuit.old leads.now }
    ensures edges { IfOk result (λ out. HasEdges circuit.new out) }
    ensures value { IfOk result (λ out. (x : ℕ → Bool) (val : EdgeOf → Bool) (p : Abs → Bool)
        → Agrees circuit.new x val → held val p out
        ≡ held_lead val (read_held val scene.now.cells.now (window_in scene.now.window) family p) leads.now) }
    ensures keeps { KeepsEdges circuit.old circuit.new }
{
    let mut out = MaySet::make(alloc);
    for one in leads {
        add_read(alloc, circuit, &mut out, scene, family, one)?;
    }
    Ok(out)
}
