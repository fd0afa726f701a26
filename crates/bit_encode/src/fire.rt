//! Firing a rule under a pattern, as one edge.

#![tactic(auto, using(crate::proofs::Growing::growing, crate::proofs::ReadLemmas::reading))]

ghost use Rattle.std.specs.Prelude.{◌≡◌, ◌&&◌, ℕ, Bool, IfOk};
ghost use Rattle.circuit_core.specs.declared.edge.Edge.{Edge as EdgeOf};
ghost use Rattle.circuit_core.specs.Network.{IsEdge};
ghost use Rattle.circuit_core.specs.Growth.{KeepsEdges};
ghost use Rattle.other_abstract.specs.Lists.{window_in, IsScene};
ghost use Rattle.bit_encode.specs.MaySets.{Agrees};
ghost use Rattle.bit_encode.specs.Coding.{HasCells};
ghost use Rattle.bit_encode.specs.Steps.{TellsSides, fires};

use crate::facts::{all_may_hold, may_be_at};
use crate::gates::both;
use crate::read::CodedScene;
use crate::step::{all_become, all_left};
use circuit_core::{Circuit, Edge, Memory};
use lemma_strengthen::formula::Formula;
use other_abstract::node::AbsNode;
use other_abstract::place::Place;
use std::alloc::Global;
use term_core::machine::TermRule;

/// The coded states of a step: that of the window in which it fires, and the kept ones before it and after it.
#[derive(Clone, Copy)]
pub struct Sides<'a> {
    pub wide: CodedScene<'a>,
    pub before: CodedScene<'a>,
    pub after: CodedScene<'a>,
}

/// The conjunction of four edges.
fn all_four(circuit: &mut Circuit, a: Edge, b: Edge, c: Edge, d: Edge) -> Result<Edge, Memory>
    requires a_edge { IsEdge circuit.old a }
    requires b_edge { IsEdge circuit.old b }
    requires c_edge { IsEdge circuit.old c }
    requires d_edge { IsEdge circuit.old d }
    ensures edge { IfOk result (λ e. IsEdge circuit.new e) }
    ensures value { IfOk result (λ e. (x : ℕ → Bool) (val : EdgeOf → Bool) → Agrees circuit.new x val
        → val e ≡ (val a && (val b && (val c && val d)))) }
    ensures keeps { KeepsEdges circuit.old circuit.new }
{
    let last = both(circuit, c, d)?;
    let rest = both(circuit, b, last)?;
    let e = both(circuit, a, rest)?;
    Ok(e)
}

/// Where a rule may fire under a pattern: the kept state before it is that of the window, all formulas may hold for
/// all nodes of the window, the guard may be true there, and each kept cell may become what it is after it.
pub fn fires(
    alloc: Global,
    circuit: &mut Circuit,
    sides: &Sides,
    formulas: &[Formula],
    rule: &TermRule,
    pattern: &[AbsNode],
    places: &[Place],
) -> Result<Edge, Memory>
    requires wide { IsScene sides.now.wide.window }
    requires before { IsScene sides.now.before.window }
    requires after { IsScene sides.now.after.window }
    requires wide_cells { HasCells circuit.old sides.now.wide.cells.now }
    requires before_cells { HasCells circuit.old sides.now.before.cells.now }
    requires after_cells { HasCells circuit.old sides.now.after.cells.now }
    ensures tells { IfOk result (λ e. TellsSides circuit.new sides.now.wide.cells.now sides.now.before.cells.now
        sides.now.after.cells.now e (fires (window_in sides.now.wide.window) (window_in sides.now.before.window)
        (window_in sides.now.after.window) formulas.now rule.now pattern.now places.now)) }
    ensures edge { IfOk result (λ e. IsEdge circuit.new e) }
    ensures keeps { KeepsEdges circuit.old circuit.new }
{
    let left = all_left(alloc, circuit, &sides.wide, &sides.before, places)?;
    let assumed = all_may_hold(alloc, circuit, &sides.wide, formulas)?;
    let guard = may_be_at(alloc, circuit, &sides.wide, pattern, &[], &rule.guard, true)?;
    let updates = rule.updates.as_slice();
    let next = all_become(
        alloc,
        circuit,
        &sides.wide,
        &sides.after,
        pattern,
        updates,
        places,
    )?;
    let e = all_four(circuit, left, assumed, guard, next)?;
    Ok(e)
}
