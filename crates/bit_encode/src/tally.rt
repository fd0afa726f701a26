//! Of parts: where each may be so, and where one may be otherwise.

#![tactic(auto, using(crate::proofs::Growing::growing))]

ghost use Rattle.std.specs.Prelude.{◌≡◌, ◌&&◌, ◌||◌, ℕ, Bool, not, IfOk};
ghost use Rattle.circuit_core.specs.declared.edge.Edge.{Edge as EdgeOf};
ghost use Rattle.circuit_core.specs.Network.{IsEdge};
ghost use Rattle.circuit_core.specs.Growth.{KeepsEdges};
ghost use Rattle.other_abstract.specs.Tests.{passes};
ghost use Rattle.bit_encode.specs.MaySets.{Agrees, HasEdges, held};

use crate::gates::{both, either};
use crate::set::{Possible, may_be};
use circuit_core::{Circuit, Edge, Memory};

/// An edge that is true where each part may be so, and one that is true where some part may be otherwise.
#[derive(Debug, Clone, Copy, PartialEq, Eq)]
pub struct Tally {
    pub each: Edge,
    pub other: Edge,
}

/// The tally with one part more, which may have these values.
pub fn counted(
    circuit: &mut Circuit,
    before: Tally,
    from: &[Possible],
    wanted: bool,
) -> Result<Tally, Memory>
    requires before_each { IsEdge circuit.old before.each }
    requires before_other { IsEdge circuit.old before.other }
    requires from { HasEdges circuit.old from.now }
    ensures each_edge { IfOk result (λ t. IsEdge circuit.new t.each) }
    ensures other_edge { IfOk result (λ t. IsEdge circuit.new t.other) }
    ensures each { IfOk result (λ t. (x : ℕ → Bool) (val : EdgeOf → Bool) → Agrees circuit.new x val
        → val t.each ≡ (val before.each && held val (passes wanted) from.now)) }
    ensures other { IfOk result (λ t. (x : ℕ → Bool) (val : EdgeOf → Bool) → Agrees circuit.new x val
        → val t.other ≡ (val before.other || held val (passes (not wanted)) from.now)) }
    ensures keeps { KeepsEdges circuit.old circuit.new }
{
    let so = may_be(circuit, from, wanted)?;
    let otherwise = may_be(circuit, from, !wanted)?;
    let each = both(circuit, before.each, so)?;
    let other = either(circuit, before.other, otherwise)?;
    Ok(Tally { each, other })
}

/// The tally with one part more, which may be otherwise but need not be so.
pub fn counted_last(
    circuit: &mut Circuit,
    before: Tally,
    from: &[Possible],
    wanted: bool,
) -> Result<Tally, Memory>
    requires before_each { IsEdge circuit.old before.each }
    requires before_other { IsEdge circuit.old before.other }
    requires from { HasEdges circuit.old from.now }
    ensures each_edge { IfOk result (λ t. IsEdge circuit.new t.each) }
    ensures other_edge { IfOk result (λ t. IsEdge circuit.new t.other) }
    ensures each { IfOk result (λ t. t.each ≡ before.each) }
    ensures other { IfOk result (λ t. (x : ℕ → Bool) (val : EdgeOf → Bool) → Agrees circuit.new x val
        → val t.other ≡ (val before.other || held val (passes (not wanted)) from.now)) }
    ensures keeps { KeepsEdges circuit.old circuit.new }
{
    let otherwise = may_be(circuit, from, !wanted)?;
    let other = either(circuit, before.other, otherwise)?;
    Ok(Tally {
        each: before.each,
        other,
    })
}
