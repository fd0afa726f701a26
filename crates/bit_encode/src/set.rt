//! Sets of values with edges: what a term or a cell may be.

#![tactic(auto, using(crate::proofs::Growing::growing, crate::proofs::SetLemmas::members, crate::proofs::Gaining::gaining))]

ghost use Rattle.std.specs.Prelude.{◌≡◌, ◌&&◌, ◌||◌, ◌<◌, ℕ, Bool, true, [], length, IfOk, IfSome, OnOk};
ghost use Rattle.std.specs.List.{slice_index_or};
ghost use Rattle.circuit_core.specs.declared.edge.Edge.{Edge as EdgeOf};
ghost use Rattle.circuit_core.specs.Network.{IsEdge};
ghost use Rattle.circuit_core.specs.Growth.{KeepsEdges};
ghost use Rattle.other_abstract.specs.declared.value.AbsValue.{AbsValue as Abs};
ghost use Rattle.other_abstract.specs.Windows.{same_value};
ghost use Rattle.other_abstract.specs.Tests.{passes};
ghost use Rattle.bit_encode.specs.declared.set.Possible.{Possible as PossibleOf};
ghost use Rattle.bit_encode.specs.MaySets.{Agrees, HasEdges, held};

use crate::gates::{both, either};
use circuit_core::{Circuit, Edge, Memory};
use other_abstract::value::AbsValue;
use std::alloc::Global;
use std::marker::Model;

/// A value, and the edge that is true where it is possible.
#[derive(Debug, Clone, Copy, PartialEq, Eq)]
pub struct Possible {
    pub value: AbsValue,
    pub edge: Edge,
}

/// The values that something may have, each with its edge. Contracts see the list of them.
#[derive(Drop)]
pub struct MaySet {
    members: Vec<Possible>,
}

impl Model for MaySet {
    ghost use Rattle.std.specs.Prelude.{List};
    ghost use Rattle.bit_encode.specs.declared.set.Possible.{Possible};

    ghost Value = { List Possible };

    ghost view = { λ s. s.members.items };
}

impl MaySet {
    /// No values. It takes no memory.
    pub fn make(alloc: Global) -> MaySet
        ensures { result ≡ [] }
    {
        MaySet {
            members: Vec::new(alloc),
        }
    }

    /// The values with their edges.
    pub fn members(&self) -> &[Possible]
        ensures { result.now ≡ self.now }
    {
        self.members.as_slice()
    }

    /// Where a value stands.
    fn place_of(&self, value: AbsValue) -> Option<usize>
        ensures within { IfSome result (λ i. i < length self.now) }
        ensures same { IfSome result (λ i. (d : PossibleOf) → (slice_index_or self.now i d).value ≡ value) }
    {
        for i in 0..self.members.len() {
            if self.members[i].value == value {
                return Some(i);
            }
        }
        None
    }

    /// Adds a value under an edge: one that is there is possible under the old edge or the new one.
    pub fn add(&mut self, circuit: &mut Circuit, value: AbsValue, edge: Edge) -> Result<(), Memory>
        requires edge { IsEdge circuit.old edge }
        requires edges { HasEdges circuit.old self.old }
        ensures edges { OnOk result (HasEdges circuit.new self.new) }
        ensures value { OnOk result ((x : ℕ → Bool) (val : EdgeOf → Bool) (p : Abs → Bool)
            → Agrees circuit.new x val → held val p self.new ≡ (held val p self.old || (p value && val edge))) }
        ensures inputs { circuit.new.inputs ≡ circuit.old.inputs }
        ensures keeps { KeepsEdges circuit.old circuit.new }
    {
        match self.place_of(value) {
            Some(i) => {
                let old = self.members[i].edge;
                let edge = either(circuit, old, edge)?;
                self.members[i] = Possible { value, edge };
            }
            None => self.members.push(Possible { value, edge })?,
        }
        Ok(())
    }

    /// Adds a value under two edges.
    pub fn add_under(
        &mut self,
        circuit: &mut Circuit,
        value: AbsValue,
        under: Edge,
        edge: Edge,
    ) -> Result<(), Memory>
        requires under { IsEdge circuit.old under }
        requires edge { IsEdge circuit.old edge }
        requires edges { HasEdges circuit.old self.old }
        ensures edges { OnOk result (HasEdges circuit.new self.new) }
        ensures value { OnOk result ((x : ℕ → Bool) (val : EdgeOf → Bool) (p : Abs → Bool)
            → Agrees circuit.new x val
            → held val p self.new ≡ (held val p self.old || (p value && (val under && val edge)))) }
        ensures keeps { KeepsEdges circuit.old circuit.new }
    {
        let here = both(circuit, under, edge)?;
        self.add(circuit, value, here)
    }
}

/// One more edge of those whose value is true, or is anything else.
fn with_truth(circuit: &mut Circuit, any: Edge, one: Possible, wanted: bool) -> Result<Edge, Memory>
    requires any { IsEdge circuit.old any }
    requires edge { IsEdge circuit.old one.edge }
    ensures edge { IfOk result (λ e. IsEdge circuit.new e) }
    ensures value { IfOk result (λ e. (x : ℕ → Bool) (val : EdgeOf → Bool) → Agrees circuit.new x val
        → val e ≡ (val any || (passes wanted one.value && val one.edge))) }
    ensures keeps { KeepsEdges circuit.old circuit.new }
{
    if one.value.is_true() == wanted {
        let e = either(circuit, any, one.edge)?;
        return Ok(e);
    }
    Ok(any)
}

/// The edge that is true where one of the values is true, or where one is anything else.
pub fn may_be(circuit: &mut Circuit, from: &[Possible], wanted: bool) -> Result<Edge, Memory>
    requires edges { HasEdges circuit.old from.now }
    ensures edge { IfOk result (λ e. IsEdge circuit.new e) }
    ensures value { IfOk result (λ e. (x : ℕ → Bool) (val : EdgeOf → Bool) → Agrees circuit.new x val
        → val e ≡ held val (passes wanted) from.now) }
    ensures keeps { KeepsEdges circuit.old circuit.new }
{
    let mut any = Circuit::truth(false);
    for one in from {
        any = with_truth(circuit, any, *one, wanted)?;
    }
    Ok(any)
}

/// One more edge of those of a value.
fn with_value(
    circuit: &mut Circuit,
    any: Edge,
    one: Possible,
    value: AbsValue,
) -> Result<Edge, Memory>
    requires any { IsEdge circuit.old any }
    requires edge { IsEdge circuit.old one.edge }
    ensures edge { IfOk result (λ e. IsEdge circuit.new e) }
    ensures value { IfOk result (λ e. (x : ℕ → Bool) (val : EdgeOf → Bool) → Agrees circuit.new x val
        → val e ≡ (val any || (same_value value one.value && val one.edge))) }
    ensures keeps { KeepsEdges circuit.old circuit.new }
{
    if value.is_same(one.value) {
        let e = either(circuit, any, one.edge)?;
        return Ok(e);
    }
    Ok(any)
}

/// The edge that is true where this value is possible.
pub fn edge_of(circuit: &mut Circuit, from: &[Possible], value: AbsValue) -> Result<Edge, Memory>
    requires edges { HasEdges circuit.old from.now }
    ensures edge { IfOk result (λ e. IsEdge circuit.new e) }
    ensures value { IfOk result (λ e. (x : ℕ → Bool) (val : EdgeOf → Bool) → Agrees circuit.new x val
        → val e ≡ held val (same_value value) from.now) }
    ensures keeps { KeepsEdges circuit.old circuit.new }
{
    let mut any = Circuit::truth(false);
    for one in from {
        any = with_value(circuit, any, *one, value)?;
    }
    Ok(any)
}

/// The edge that is true where some value is possible.
pub fn any_value(circuit: &mut Circuit, from: &[Possible]) -> Result<Edge, Memory>
    requires edges { HasEdges circuit.old from.now }
    ensures edge { IfOk result (λ e. IsEdge circuit.new e) }
    ensures value { IfOk result (λ e. (x : ℕ → Bool) (val : EdgeOf → Bool) → Agrees circuit.new x val
        → val e ≡ held val (λ v. true) from.now) }
    ensures keeps { KeepsEdges circuit.old circuit.new }
{
    let mut any = Circuit::truth(false);
    for one in from {
        any = either(circuit, any, one.edge)?;
    }
    Ok(any)
}
