//! Codes: values as bits.

#![tactic(auto, using(crate::proofs::Growing::growing, crate::proofs::Gaining::gaining, crate::proofs::CodeLemmas::codes))]

ghost use Rattle.std.specs.Prelude.{◌≡◌, ◌&&◌, ◌||◌, ◌+◌, ◌≤◌, ◌<◌, ◌^◌, ℕ, Bool, map, not as opposite, All, IfOk, OnOk, if◌then◌else◌};
ghost use Rattle.circuit_core.specs.declared.edge.Edge.{Edge as EdgeOf};
ghost use Rattle.circuit_core.specs.Network.{IsEdge};
ghost use Rattle.circuit_core.specs.Growth.{KeepsEdges};
ghost use Rattle.other_abstract.specs.declared.value.AbsValue.{AbsValue as Abs};
ghost use Rattle.bit_encode.specs.MaySets.{Agrees, HasEdges, held};
ghost use Rattle.bit_encode.specs.Codes.{number_of, matches, bits_at, picked, width, bits_of};

use crate::gates::both;
use crate::set::MaySet;
use circuit_core::{Circuit, Edge, Memory, not};
use other_abstract::value::AbsValue;
use std::alloc::Global;

/// So many fresh inputs.
pub fn inputs(alloc: Global, circuit: &mut Circuit, count: u32) -> Result<Vec<Edge>, Memory>
    ensures edges { IfOk result (λ bits. All (IsEdge circuit.new) bits.items) }
    ensures value { IfOk result (λ bits. (x : ℕ → Bool) (val : EdgeOf → Bool) → Agrees circuit.new x val
        → map val bits.items ≡ bits_at x circuit.old.inputs count) }
    ensures inputs { OnOk result (circuit.new.inputs ≡ circuit.old.inputs + count) }
    ensures keeps { KeepsEdges circuit.old circuit.new }
{
    let mut bits = Vec::new(alloc);
    for made in 0..count {
        let bit = circuit.input()?;
        bits.push(bit)?;
    }
    Ok(bits)
}

/// One more bit of a number.
fn with_bit(circuit: &mut Circuit, e: Edge, bit: Edge, odd: bool) -> Result<Edge, Memory>
    requires e_edge { IsEdge circuit.old e }
    requires b_edge { IsEdge circuit.old bit }
    ensures edge { IfOk result (λ r. IsEdge circuit.new r) }
    ensures value { IfOk result (λ r. (x : ℕ → Bool) (val : EdgeOf → Bool) → Agrees circuit.new x val
        → val r ≡ (val e && (if odd then val bit else opposite (val bit)))) }
    ensures inputs { circuit.new.inputs ≡ circuit.old.inputs }
    ensures keeps { KeepsEdges circuit.old circuit.new }
{
    if odd {
        both(circuit, e, bit)
    } else {
        both(circuit, e, not(bit))
    }
}

/// The edge that is true where these bits are those of a number.
pub fn is_number(circuit: &mut Circuit, bits: &[Edge], number: usize) -> Result<Edge, Memory>
    requires bits { All (IsEdge circuit.old) bits.now }
    ensures edge { IfOk result (λ e. IsEdge circuit.new e) }
    ensures value { IfOk result (λ e. (x : ℕ → Bool) (val : EdgeOf → Bool) → Agrees circuit.new x val
        → val e ≡ matches number (map val bits.now)) }
    ensures inputs { circuit.new.inputs ≡ circuit.old.inputs }
    ensures keeps { KeepsEdges circuit.old circuit.new }
{
    let mut e = Circuit::truth(true);
    let mut rest = number;
    for bit in bits {
        e = with_bit(circuit, e, *bit, rest % 2 == 1)?;
        rest = rest / 2;
    }
    let e = both(circuit, e, Circuit::truth(rest == 0))?;
    Ok(e)
}

/// Adds the value of one more position.
fn add_place(
    circuit: &mut Circuit,
    out: &mut MaySet,
    bits: &[Edge],
    value: AbsValue,
    place: usize,
) -> Result<(), Memory>
    requires bits { All (IsEdge circuit.old) bits.now }
    requires edges { HasEdges circuit.old out.old }
    ensures edges { OnOk result (HasEdges circuit.new out.new) }
    ensures value { OnOk result ((x : ℕ → Bool) (val : EdgeOf → Bool) (p : Abs → Bool)
        → Agrees circuit.new x val
        → held val p out.new ≡ (held val p out.old || (p value && matches place (map val bits.now)))) }
    ensures inputs { circuit.new.inputs ≡ circuit.old.inputs }
    ensures keeps { KeepsEdges circuit.old circuit.new }
{
    let here = is_number(circuit, bits, place)?;
    out.add(circuit, value, here)
}

/// The values of a cell, each under the edge that is true where these bits code its position.
pub fn coded(
    alloc: Global,
    circuit: &mut Circuit,
    values: &[AbsValue],
    bits: &[Edge],
) -> Result<MaySet, Memory>
    requires bits { All (IsEdge circuit.old) bits.now }
    ensures edges { IfOk result (λ out. HasEdges circuit.new out) }
    ensures value { IfOk result (λ out. (x : ℕ → Bool) (val : EdgeOf → Bool) (p : Abs → Bool)
        → Agrees circuit.new x val → held val p out ≡ picked p values.now (number_of (map val bits.now))) }
    ensures inputs { circuit.new.inputs ≡ circuit.old.inputs }
    ensures keeps { KeepsEdges circuit.old circuit.new }
{
    let mut out = MaySet::make(alloc);
    for place in 0..values.len() {
        add_place(circuit, &mut out, bits, values[place], place)?;
    }
    Ok(out)
}

/// How many bits code one of so many values.
pub fn width(values: u32) -> u32
    ensures width { result ≡ width values }
    ensures enough { values ≤ 2 ^ result }
    ensures least { (b : ℕ) → values ≤ 2 ^ b → result ≤ b }
{
    let mut room: u64 = 1;
    for bits in 0..values {
        if u64::from(values) <= room {
            return bits;
        }
        room = 2 * room;
    }
    values
}
