//! Gates, in terms of valuations of edges.

#![tactic(auto, using(crate::proofs::Growing::growing))]

ghost use Rattle.std.specs.Prelude.{◌≡◌, ◌&&◌, ◌||◌, ℕ, Bool, IfOk};
ghost use Rattle.term_core.specs.Values.{same_truth};
ghost use Rattle.circuit_core.specs.declared.edge.Edge.{Edge as EdgeOf};
ghost use Rattle.circuit_core.specs.Network.{IsEdge};
ghost use Rattle.circuit_core.specs.Growth.{KeepsEdges};
ghost use Rattle.bit_encode.specs.MaySets.{Agrees};

use circuit_core::{Circuit, Edge, Memory, not};

/// The conjunction.
pub fn both(circuit: &mut Circuit, a: Edge, b: Edge) -> Result<Edge, Memory>
    requires a_edge { IsEdge circuit.old a }
    requires b_edge { IsEdge circuit.old b }
    ensures edge { IfOk result (λ e. IsEdge circuit.new e) }
    ensures value { IfOk result (λ e. (x : ℕ → Bool) (val : EdgeOf → Bool) → Agrees circuit.new x val
        → val e ≡ (val a && val b)) }
    ensures keeps { KeepsEdges circuit.old circuit.new }
{
    let e = circuit.and(a, b)?;
    Ok(e)
}

/// The disjunction.
pub fn either(circuit: &mut Circuit, a: Edge, b: Edge) -> Result<Edge, Memory>
    requires a_edge { IsEdge circuit.old a }
    requires b_edge { IsEdge circuit.old b }
    ensures edge { IfOk result (λ e. IsEdge circuit.new e) }
    ensures value { IfOk result (λ e. (x : ℕ → Bool) (val : EdgeOf → Bool) → Agrees circuit.new x val
        → val e ≡ (val a || val b)) }
    ensures keeps { KeepsEdges circuit.old circuit.new }
{
    let e = circuit.or(a, b)?;
    Ok(e)
}

/// Where two edges have one value.
pub fn same(circuit: &mut Circuit, a: Edge, b: Edge) -> Result<Edge, Memory>
    requires a_edge { IsEdge circuit.old a }
    requires b_edge { IsEdge circuit.old b }
    ensures edge { IfOk result (λ e. IsEdge circuit.new e) }
    ensures value { IfOk result (λ e. (x : ℕ → Bool) (val : EdgeOf → Bool) → Agrees circuit.new x val
        → val e ≡ same_truth (val a) (val b)) }
    ensures keeps { KeepsEdges circuit.old circuit.new }
{
    let e = circuit.ite(a, b, not(b))?;
    Ok(e)
}
