//! What operators make of sets of values with edges: each result of values that the parts may have, under
//! an edge that is true where the parts may have such values.

#![tactic(auto, using(crate::proofs::Growing::growing, crate::proofs::Gaining::gaining))]

ghost use Rattle.std.specs.Prelude.{◌≡◌, ◌&&◌, ◌||◌, ℕ, Bool, true, false, not, IfOk, OnOk};
ghost use Rattle.std.specs.List.{list_any};
ghost use Rattle.circuit_core.specs.declared.edge.Edge.{Edge as EdgeOf};
ghost use Rattle.circuit_core.specs.Network.{IsEdge};
ghost use Rattle.circuit_core.specs.Growth.{KeepsEdges};
ghost use Rattle.other_abstract.specs.declared.value.AbsValue.{AbsValue as Abs};
ghost use Rattle.other_abstract.specs.declared.value.AbsValue.TheVariants.{Truth};
ghost use Rattle.other_abstract.specs.Windows.{truth};
ghost use Rattle.other_abstract.specs.Tests.{passes, either_way, same_passes};
ghost use Rattle.bit_encode.specs.MaySets.{Agrees, HasEdges, held, pair_passes};

use crate::set::{MaySet, Possible, may_be};
use circuit_core::{Circuit, Edge, Memory};
use other_abstract::node::AbsNode;
use other_abstract::value::AbsValue;
use std::alloc::Global;
use term_core::value::ArithOp;

/// An operator on two values.
#[derive(Debug, Clone, Copy, PartialEq, Eq)]
pub enum PairOp {
    Same,
    Less,
    Arith(ArithOp),
}

/// One value.
pub fn single(alloc: Global, circuit: &mut Circuit, value: AbsValue) -> Result<MaySet, Memory>
    ensures edges { IfOk result (λ out. HasEdges circuit.new out) }
    ensures value { IfOk result (λ out. (x : ℕ → Bool) (val : EdgeOf → Bool) (p : Abs → Bool)
        → Agrees circuit.new x val → held val p out ≡ p value) }
    ensures keeps { KeepsEdges circuit.old circuit.new }
{
    let mut out = MaySet::make(alloc);
    out.add(circuit, value, Circuit::truth(true))?;
    Ok(out)
}

/// Adds the members of a set, all under an edge.
pub fn add_all(
    circuit: &mut Circuit,
    out: &mut MaySet,
    under: Edge,
    more: &[Possible],
) -> Result<(), Memory>
    requires edge { IsEdge circuit.old under }
    requires edges { HasEdges circuit.old out.old }
    requires more { HasEdges circuit.old more.now }
    ensures edges { OnOk result (HasEdges circuit.new out.new) }
    ensures value { OnOk result ((x : ℕ → Bool) (val : EdgeOf → Bool) (p : Abs → Bool)
        → Agrees circuit.new x val
        → held val p out.new ≡ (held val p out.old || (held val p more.now && val under))) }
    ensures keeps { KeepsEdges circuit.old circuit.new }
{
    for one in more {
        out.add_under(circuit, one.value, under, one.edge)?;
    }
    Ok(())
}

/// Adds values, all under an edge.
pub fn add_values(
    circuit: &mut Circuit,
    out: &mut MaySet,
    under: Edge,
    values: &[AbsValue],
) -> Result<(), Memory>
    requires edge { IsEdge circuit.old under }
    requires edges { HasEdges circuit.old out.old }
    ensures edges { OnOk result (HasEdges circuit.new out.new) }
    ensures value { OnOk result ((x : ℕ → Bool) (val : EdgeOf → Bool) (p : Abs → Bool)
        → Agrees circuit.new x val
        → held val p out.new ≡ (held val p out.old || (list_any p values.now && val under))) }
    ensures keeps { KeepsEdges circuit.old circuit.new }
{
    for value in values {
        out.add(circuit, *value, under)?;
    }
    Ok(())
}

/// Adds the negation of one member.
fn negate(circuit: &mut Circuit, out: &mut MaySet, one: Possible) -> Result<(), Memory>
    requires edge { IsEdge circuit.old one.edge }
    requires edges { HasEdges circuit.old out.old }
    ensures edges { OnOk result (HasEdges circuit.new out.new) }
    ensures value { OnOk result ((x : ℕ → Bool) (val : EdgeOf → Bool) (p : Abs → Bool)
        → Agrees circuit.new x val
        → held val p out.new ≡ (held val p out.old || (p (Truth (not (truth one.value))) && val one.edge))) }
    ensures keeps { KeepsEdges circuit.old circuit.new }
{
    out.add(circuit, AbsValue::Truth(!one.value.is_true()), one.edge)
}

/// The negations.
pub fn negated(alloc: Global, circuit: &mut Circuit, from: &[Possible]) -> Result<MaySet, Memory>
    requires edges { HasEdges circuit.old from.now }
    ensures edges { IfOk result (λ out. HasEdges circuit.new out) }
    ensures value { IfOk result (λ out. (x : ℕ → Bool) (val : EdgeOf → Bool) (p : Abs → Bool)
        → Agrees circuit.new x val
        → held val p out ≡ held val (λ v. p (Truth (not (truth v)))) from.now) }
    ensures keeps { KeepsEdges circuit.old circuit.new }
{
    let mut out = MaySet::make(alloc);
    for one in from {
        negate(circuit, &mut out, *one)?;
    }
    Ok(out)
}

/// A verdict: `all` where each part may be so, and its opposite where one part may be otherwise.
pub fn verdict(
    alloc: Global,
    circuit: &mut Circuit,
    all: bool,
    each: Edge,
    other: Edge,
) -> Result<MaySet, Memory>
    requires each { IsEdge circuit.old each }
    requires other { IsEdge circuit.old other }
    ensures edges { IfOk result (λ out. HasEdges circuit.new out) }
    ensures value { IfOk result (λ out. (x : ℕ → Bool) (val : EdgeOf → Bool) (p : Abs → Bool)
        → Agrees circuit.new x val → held val p out ≡ either_way p all (val each) (val other)) }
    ensures keeps { KeepsEdges circuit.old circuit.new }
{
    let mut out = MaySet::make(alloc);
    out.add(circuit, AbsValue::Truth(all), each)?;
    out.add(circuit, AbsValue::Truth(!all), other)?;
    Ok(out)
}

/// The members of one of two sets, each set under its edge.
pub fn chosen(
    alloc: Global,
    circuit: &mut Circuit,
    hold: Edge,
    fail: Edge,
    first: &[Possible],
    second: &[Possible],
) -> Result<MaySet, Memory>
    requires hold { IsEdge circuit.old hold }
    requires fail { IsEdge circuit.old fail }
    requires first { HasEdges circuit.old first.now }
    requires second { HasEdges circuit.old second.now }
    ensures edges { IfOk result (λ out. HasEdges circuit.new out) }
    ensures value { IfOk result (λ out. (x : ℕ → Bool) (val : EdgeOf → Bool) (p : Abs → Bool)
        → Agrees circuit.new x val
        → held val p out ≡ ((held val p first.now && val hold) || (held val p second.now && val fail))) }
    ensures keeps { KeepsEdges circuit.old circuit.new }
{
    let mut out = MaySet::make(alloc);
    add_all(circuit, &mut out, hold, first)?;
    add_all(circuit, &mut out, fail, second)?;
    Ok(out)
}

/// The members of the first set where the test may be true, and those of the second where it may be anything else.
pub fn chosen_by(
    alloc: Global,
    circuit: &mut Circuit,
    test: &[Possible],
    first: &[Possible],
    second: &[Possible],
) -> Result<MaySet, Memory>
    requires test { HasEdges circuit.old test.now }
    requires first { HasEdges circuit.old first.now }
    requires second { HasEdges circuit.old second.now }
    ensures edges { IfOk result (λ out. HasEdges circuit.new out) }
    ensures value { IfOk result (λ out. (x : ℕ → Bool) (val : EdgeOf → Bool) (p : Abs → Bool)
        → Agrees circuit.new x val
        → held val p out ≡ ((held val p first.now && held val (passes true) test.now)
        || (held val p second.now && held val (passes false) test.now))) }
    ensures keeps { KeepsEdges circuit.old circuit.new }
{
    let hold = may_be(circuit, test, true)?;
    let fail = may_be(circuit, test, false)?;
    let out = chosen(alloc, circuit, hold, fail, first, second)?;
    Ok(out)
}

/// Adds what comparing two values may give, under two edges: two that are Other may be one node or two.
fn compare(
    circuit: &mut Circuit,
    out: &mut MaySet,
    left: AbsValue,
    right: AbsValue,
    under: Edge,
    edge: Edge,
) -> Result<(), Memory>
    requires under { IsEdge circuit.old under }
    requires edge { IsEdge circuit.old edge }
    requires edges { HasEdges circuit.old out.old }
    ensures edges { OnOk result (HasEdges circuit.new out.new) }
    ensures value { OnOk result ((x : ℕ → Bool) (val : EdgeOf → Bool) (p : Abs → Bool)
        → Agrees circuit.new x val
        → held val p out.new ≡ (held val p out.old || (same_passes p left right && (val under && val edge)))) }
    ensures keeps { KeepsEdges circuit.old circuit.new }
{
    match (left, right) {
        (AbsValue::Node(AbsNode::Other), AbsValue::Node(AbsNode::Other)) => {
            out.add_under(circuit, AbsValue::Truth(true), under, edge)?;
            out.add_under(circuit, AbsValue::Truth(false), under, edge)
        }
        _ => out.add_under(circuit, AbsValue::Truth(left.is_same(right)), under, edge),
    }
}

/// Adds what an operator may make of two values, under two edges.
fn pair(
    circuit: &mut Circuit,
    out: &mut MaySet,
    op: PairOp,
    left: AbsValue,
    right: AbsValue,
    under: Edge,
    edge: Edge,
) -> Result<(), Memory>
    requires under { IsEdge circuit.old under }
    requires edge { IsEdge circuit.old edge }
    requires edges { HasEdges circuit.old out.old }
    ensures edges { OnOk result (HasEdges circuit.new out.new) }
    ensures value { OnOk result ((x : ℕ → Bool) (val : EdgeOf → Bool) (p : Abs → Bool)
        → Agrees circuit.new x val
        → held val p out.new ≡ (held val p out.old || (pair_passes op p left right && (val under && val edge)))) }
    ensures keeps { KeepsEdges circuit.old circuit.new }
{
    match op {
        PairOp::Same => compare(circuit, out, left, right, under, edge),
        PairOp::Less => {
            let less = left.number() < right.number();
            out.add_under(circuit, AbsValue::Truth(less), under, edge)
        }
        PairOp::Arith(op) => {
            let number = op.apply(left.number(), right.number());
            out.add_under(circuit, AbsValue::Number(number), under, edge)
        }
    }
}

/// Adds what an operator may make of a value and of each of these.
fn pair_with(
    circuit: &mut Circuit,
    out: &mut MaySet,
    op: PairOp,
    left: Possible,
    rights: &[Possible],
) -> Result<(), Memory>
    requires edge { IsEdge circuit.old left.edge }
    requires edges { HasEdges circuit.old out.old }
    requires rights { HasEdges circuit.old rights.now }
    ensures edges { OnOk result (HasEdges circuit.new out.new) }
    ensures value { OnOk result ((x : ℕ → Bool) (val : EdgeOf → Bool) (p : Abs → Bool)
        → Agrees circuit.new x val
        → held val p out.new ≡ (held val p out.old || (held val (pair_passes op p left.value) rights.now && val left.edge))) }
    ensures keeps { KeepsEdges circuit.old circuit.new }
{
    for right in rights {
        pair(
            circuit,
            out,
            op,
            left.value,
            right.value,
            left.edge,
            right.edge,
        )?;
    }
    Ok(())
}

/// What an operator may make of values of two sets.
pub fn paired(
    alloc: Global,
    circuit: &mut Circuit,
    op: PairOp,
    lefts: &[Possible],
    rights: &[Possible],
) -> Result<MaySet, Memory>
    requires lefts { HasEdges circuit.old lefts.now }
    requires rights { HasEdges circuit.old rights.now }
    ensures edges { IfOk result (λ out. HasEdges circuit.new out) }
    ensures value { IfOk result (λ out. (x : ℕ → Bool) (val : EdgeOf → Bool) (p : Abs → Bool)
        → Agrees circuit.new x val
        → held val p out ≡ held val (λ a. held val (pair_passes op p a) rights.now) lefts.now) }
    ensures keeps { KeepsEdges circuit.old circuit.new }
{
    let mut out = MaySet::make(alloc);
    for left in lefts {
        pair_with(circuit, &mut out, op, *left, rights)?;
    }
    Ok(out)
}
