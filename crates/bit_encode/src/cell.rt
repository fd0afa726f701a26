//! Cells in bits: fresh inputs that code their values, one cell after the other.

#![tactic(auto, using(crate::proofs::Growing::growing, crate::proofs::Gaining::gaining, crate::proofs::CellLemmas::cells))]

ghost use Rattle.std.specs.Prelude.{◌≡◌, ◌&&◌, ◌+◌, ℕ, Bool, true, length, IfOk, OnOk};
ghost use Rattle.std.specs.List.{list_all};
ghost use Rattle.circuit_core.specs.declared.edge.Edge.{Edge as EdgeOf};
ghost use Rattle.circuit_core.specs.Network.{IsEdge};
ghost use Rattle.circuit_core.specs.Growth.{KeepsEdges};
ghost use Rattle.other_abstract.specs.declared.value.AbsValue.{AbsValue as Abs};
ghost use Rattle.bit_encode.specs.MaySets.{Agrees, HasEdges, held};
ghost use Rattle.bit_encode.specs.Codes.{width, picked, coded_place, bit_count};
ghost use Rattle.bit_encode.specs.Coding.{HasCells, AreCoded, legal_edges};

use crate::code::{coded, inputs, width};
use crate::gates::both;
use crate::set::{MaySet, any_value};
use circuit_core::{Circuit, Edge, Memory};
use other_abstract::value::AbsValue;
use sqlite_items::Items;
use std::alloc::Global;

/// How many values there are.
fn count(values: &[AbsValue]) -> Result<u32, Memory>
    ensures { IfOk result (λ n. n ≡ length values.now) }
{
    match u32::try_from(values.len()) {
        Ok(n) => Ok(n),
        Err(_) => Err(Memory),
    }
}

/// Fresh inputs for a cell that has these values, and its values, each under the edge that is true where
/// the inputs code its position. More than 2^32 - 1 values are answered as want of memory.
pub fn coded_cell(
    alloc: Global,
    circuit: &mut Circuit,
    values: &[AbsValue],
) -> Result<MaySet, Memory>
    ensures edges { IfOk result (λ out. HasEdges circuit.new out) }
    ensures value { IfOk result (λ out. (x : ℕ → Bool) (val : EdgeOf → Bool) (p : Abs → Bool)
        → Agrees circuit.new x val
        → held val p out ≡ picked p values.now (coded_place x circuit.old.inputs values.now)) }
    ensures inputs { OnOk result (circuit.new.inputs ≡ circuit.old.inputs + width (length values.now)) }
    ensures keeps { KeepsEdges circuit.old circuit.new }
{
    let count = count(values)?;
    let bits = inputs(alloc, circuit, width(count))?;
    let out = coded(alloc, circuit, values, bits.as_slice())?;
    Ok(out)
}

/// Fresh inputs for cells, each with its list of values, and the sets of their values.
pub fn coded_cells(
    alloc: Global,
    circuit: &mut Circuit,
    lists: &[Items<AbsValue>],
) -> Result<Vec<MaySet>, Memory>
    ensures edges { IfOk result (λ cells. HasCells circuit.new cells.items) }
    ensures coded { IfOk result (λ cells. (x : ℕ → Bool) (val : EdgeOf → Bool) → Agrees circuit.new x val
        → AreCoded val x circuit.old.inputs lists.now cells.items) }
    ensures inputs { OnOk result (circuit.new.inputs ≡ circuit.old.inputs + bit_count lists.now) }
    ensures keeps { KeepsEdges circuit.old circuit.new }
{
    let mut cells = Vec::new(alloc);
    for list in lists {
        let cell = coded_cell(alloc, circuit, list.as_slice())?;
        cells.push(cell)?;
    }
    Ok(cells)
}

/// One more cell that has some value.
fn with_cell(circuit: &mut Circuit, all: Edge, cell: &MaySet) -> Result<Edge, Memory>
    requires all { IsEdge circuit.old all }
    requires cell { HasEdges circuit.old cell.now }
    ensures edge { IfOk result (λ e. IsEdge circuit.new e) }
    ensures value { IfOk result (λ e. (x : ℕ → Bool) (val : EdgeOf → Bool) → Agrees circuit.new x val
        → val e ≡ (val all && held val (λ v. true) cell.now)) }
    ensures keeps { KeepsEdges circuit.old circuit.new }
{
    let one = any_value(circuit, cell.members())?;
    let e = both(circuit, all, one)?;
    Ok(e)
}

/// The edge that is true where each cell has some value: where its code is legal.
pub fn legal(circuit: &mut Circuit, cells: &[MaySet]) -> Result<Edge, Memory>
    requires cells { HasCells circuit.old cells.now }
    ensures edge { IfOk result (λ e. IsEdge circuit.new e) }
    ensures value { IfOk result (λ e. (x : ℕ → Bool) (val : EdgeOf → Bool) → Agrees circuit.new x val
        → val e ≡ legal_edges val cells.now) }
    ensures keeps { KeepsEdges circuit.old circuit.new }
{
    let mut all = Circuit::truth(true);
    for cell in cells {
        all = with_cell(circuit, all, cell)?;
    }
    Ok(all)
}
