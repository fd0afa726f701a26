//! The choice of a rule or start and a pattern, by the bits of its position.

#![tactic(auto, using(crate::proofs::Growing::growing, crate::proofs::ChoosingLemmas::choosing))]

ghost use Rattle.std.specs.Prelude.{◌≡◌, ◌+◌, ◌&&◌, ◌||◌, ◌<◌, ℕ, Bool, length, map, All, IfOk};
ghost use Rattle.circuit_core.specs.declared.edge.Edge.{Edge as EdgeOf};
ghost use Rattle.circuit_core.specs.Network.{IsEdge};
ghost use Rattle.circuit_core.specs.Growth.{KeepsEdges};
ghost use Rattle.bit_encode.specs.Codes.{matches};
ghost use Rattle.bit_encode.specs.MaySets.{Agrees};

use crate::gates::{both, either};
use bit_encode::code::is_number;
use circuit_core::{Circuit, Edge, Memory};

/// One more choice: that at this position, where it holds.
pub fn with_choice(
    circuit: &mut Circuit,
    any: Edge,
    bits: &[Edge],
    position: usize,
    holds: Edge,
) -> Result<Edge, Memory>
    requires any { IsEdge circuit.old any }
    requires bits { All (IsEdge circuit.old) bits.now }
    requires holds { IsEdge circuit.old holds }
    ensures edge { IfOk result (λ e. IsEdge circuit.new e) }
    ensures value { IfOk result (λ e. (x : ℕ → Bool) (val : EdgeOf → Bool) → Agrees circuit.new x val
        → val e ≡ (val any || (val holds && matches position (map val bits.now)))) }
    ensures keeps { KeepsEdges circuit.old circuit.new }
{
    let here = is_number(circuit, bits, position)?;
    let one = both(circuit, holds, here)?;
    let e = either(circuit, any, one)?;
    Ok(e)
}
