//! The cells of a window in bits: fresh inputs that code a state of it.

#![tactic(auto, using(crate::proofs::Growing::growing, crate::proofs::WindowLemmas::windows))]

ghost use Rattle.std.specs.Prelude.{◌≡◌, ◌+◌, ℕ, Bool, [], length, map, IfOk, OnOk};
ghost use Rattle.std.specs.List.{slice_index_or};
ghost use Rattle.circuit_core.specs.declared.edge.Edge.{Edge as EdgeOf};
ghost use Rattle.circuit_core.specs.Growth.{KeepsEdges};
ghost use Rattle.other_abstract.specs.declared.value.AbsValue.{AbsValue as Abs};
ghost use Rattle.other_abstract.specs.declared.place.Place.{Place as PlaceOf};
ghost use Rattle.other_abstract.specs.Places.{places};
ghost use Rattle.other_abstract.specs.Lists.{window_in, IsScene};
ghost use Rattle.bit_encode.specs.MaySets.{Agrees, HasEdges, held};
ghost use Rattle.bit_encode.specs.Codes.{width, picked, coded_place, bit_count, cell_values, cell_lists};
ghost use Rattle.bit_encode.specs.Coding.{HasCells, AreCoded};

use crate::cell::coded_cell;
use crate::set::MaySet;
use crate::values::cell_values;
use circuit_core::{Circuit, Memory};
use other_abstract::place::Place;
use other_abstract::places::places_in;
use other_abstract::scene::Scene;
use other_abstract::value::AbsValue;
use sqlite_items::Items;
use std::alloc::Global;

/// The cells of a window, in order.
pub fn window_places(alloc: Global, scene: &Scene) -> Result<Vec<Place>, Memory>
    requires { IsScene scene.now }
    ensures { IfOk result (λ out. out.items ≡ places (window_in scene.now)) }
{
    match places_in(alloc, scene.nodes, scene.families) {
        Ok(places) => Ok(places),
        Err(_) => Err(Memory),
    }
}

/// For each family the values that its cells may have.
fn family_values(alloc: Global, scene: &Scene) -> Result<Vec<Items<AbsValue>>, Memory>
    requires { IsScene scene.now }
    ensures { IfOk result (λ out. out.items ≡ map (cell_values (window_in scene.now)) scene.now.families.now) }
{
    let mut out = Vec::new(alloc);
    for family in scene.families {
        let values = cell_values(alloc, scene, family)?;
        out.push(Items::from_vec(values))?;
    }
    Ok(out)
}

/// Fresh inputs for a cell of a family, and the set of its values.
fn coded_at(
    alloc: Global,
    circuit: &mut Circuit,
    families: &[Items<AbsValue>],
    family: usize,
) -> Result<MaySet, Memory>
    ensures edges { IfOk result (λ out. HasEdges circuit.new out) }
    ensures value { IfOk result (λ out. (x : ℕ → Bool) (val : EdgeOf → Bool) (p : Abs → Bool)
        → Agrees circuit.new x val → held val p out ≡ picked p (slice_index_or families.now family [])
        (coded_place x circuit.old.inputs (slice_index_or families.now family []))) }
    ensures inputs { OnOk result (circuit.new.inputs
        ≡ circuit.old.inputs + width (length (slice_index_or families.now family []))) }
    ensures keeps { KeepsEdges circuit.old circuit.new }
{
    if family < families.len() {
        let out = coded_cell(alloc, circuit, families[family].as_slice())?;
        return Ok(out);
    }
    let out = coded_cell(alloc, circuit, &[])?;
    Ok(out)
}

/// Fresh inputs for these cells, and the sets of their values.
fn coded_places(
    alloc: Global,
    circuit: &mut Circuit,
    families: &[Items<AbsValue>],
    places: &[Place],
) -> Result<Vec<MaySet>, Memory>
    ensures edges { IfOk result (λ cells. HasCells circuit.new cells.items) }
    ensures coded { IfOk result (λ cells. (x : ℕ → Bool) (val : EdgeOf → Bool) → Agrees circuit.new x val
        → AreCoded val x circuit.old.inputs
        (map (λ (place : PlaceOf). slice_index_or families.now place.family []) places.now) cells.items) }
    ensures inputs { OnOk result (circuit.new.inputs ≡ circuit.old.inputs
        + bit_count (map (λ (place : PlaceOf). slice_index_or families.now place.family []) places.now)) }
    ensures keeps { KeepsEdges circuit.old circuit.new }
{
    let mut cells = Vec::new(alloc);
    for place in places {
        let cell = coded_at(alloc, circuit, families, place.family)?;
        cells.push(cell)?;
    }
    Ok(cells)
}

/// Fresh inputs that code a state of a window, cell by cell, and the sets of the cells' values.
pub fn coded_window(
    alloc: Global,
    circuit: &mut Circuit,
    scene: &Scene,
) -> Result<Vec<MaySet>, Memory>
    requires { IsScene scene.now }
    ensures edges { IfOk result (λ cells. HasCells circuit.new cells.items) }
    ensures coded { IfOk result (λ cells. (x : ℕ → Bool) (val : EdgeOf → Bool) → Agrees circuit.new x val
        → AreCoded val x circuit.old.inputs (cell_lists (window_in scene.now)) cells.items) }
    ensures inputs { OnOk result (circuit.new.inputs
        ≡ circuit.old.inputs + bit_count (cell_lists (window_in scene.now))) }
    ensures keeps { KeepsEdges circuit.old circuit.new }
{
    let families = family_values(alloc, scene)?;
    let places = window_places(alloc, scene)?;
    let cells = coded_places(alloc, circuit, families.as_slice(), places.as_slice())?;
    Ok(cells)
}
