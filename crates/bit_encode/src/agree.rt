//! Whether cells agree: a kept cell with that of the window, and the next one with its update or with what it was.

#![tactic(auto, using(crate::proofs::Growing::growing, crate::proofs::Gaining::gaining))]

ghost use Rattle.std.specs.Prelude.{◌≡◌, ◌&&◌, ◌||◌, ℕ, Bool, IfOk};
ghost use Rattle.circuit_core.specs.declared.edge.Edge.{Edge as EdgeOf};
ghost use Rattle.circuit_core.specs.Network.{IsEdge};
ghost use Rattle.circuit_core.specs.Growth.{KeepsEdges};
ghost use Rattle.other_abstract.specs.Windows.{same_value};
ghost use Rattle.other_abstract.specs.Machines.{read_kept};
ghost use Rattle.bit_encode.specs.MaySets.{Agrees, HasEdges, held};

use crate::gates::{both, either};
use crate::set::{Possible, edge_of};
use circuit_core::{Circuit, Edge, Memory};
use other_abstract::node::AbsNode;
use other_abstract::value::AbsValue;

/// The value, where a fired node is read as Other.
fn read_kept(value: AbsValue) -> AbsValue
    ensures { result ≡ read_kept value }
{
    match value {
        AbsValue::Node(AbsNode::Fired(_)) => AbsValue::Node(AbsNode::Other),
        _ => value,
    }
}

/// One more possible value, where it is that of the other cell.
fn with_agreement(
    circuit: &mut Circuit,
    any: Edge,
    one: Possible,
    to: &[Possible],
) -> Result<Edge, Memory>
    requires any { IsEdge circuit.old any }
    requires edge { IsEdge circuit.old one.edge }
    requires to { HasEdges circuit.old to.now }
    ensures edge { IfOk result (λ e. IsEdge circuit.new e) }
    ensures value { IfOk result (λ e. (x : ℕ → Bool) (val : EdgeOf → Bool) → Agrees circuit.new x val
        → val e ≡ (val any || (held val (same_value (read_kept one.value)) to.now && val one.edge))) }
    ensures keeps { KeepsEdges circuit.old circuit.new }
{
    let there = edge_of(circuit, to, read_kept(one.value))?;
    let here = both(circuit, there, one.edge)?;
    let e = either(circuit, any, here)?;
    Ok(e)
}

/// The edge that is true where a possible value of the one, with fired nodes read as Other, is a possible value
/// of the other.
pub fn agree(circuit: &mut Circuit, from: &[Possible], to: &[Possible]) -> Result<Edge, Memory>
    requires from { HasEdges circuit.old from.now }
    requires to { HasEdges circuit.old to.now }
    ensures edge { IfOk result (λ e. IsEdge circuit.new e) }
    ensures value { IfOk result (λ e. (x : ℕ → Bool) (val : EdgeOf → Bool) → Agrees circuit.new x val
        → val e ≡ held val (λ v. held val (same_value (read_kept v)) to.now) from.now) }
    ensures keeps { KeepsEdges circuit.old circuit.new }
{
    let mut any = Circuit::truth(false);
    for one in from {
        any = with_agreement(circuit, any, *one, to)?;
    }
    Ok(any)
}
