//! Facts of the coded state of a window, each as an edge that is true exactly where the fact holds.

#![tactic(auto, using(crate::proofs::Growing::growing, crate::proofs::FactLemmas::facts))]

ghost use Rattle.std.specs.Prelude.{◌≡◌, ◌++◌, true, false, IfOk};
ghost use Rattle.std.specs.List.{list_all, list_any};
ghost use Rattle.circuit_core.specs.Network.{IsEdge};
ghost use Rattle.circuit_core.specs.Growth.{KeepsEdges};
ghost use Rattle.lemma_strengthen.specs.declared.formula.Formula.{Formula as FormulaOf};
ghost use Rattle.other_abstract.specs.Tests.{lists_of, passes, may, may_hold, may_fail};
ghost use Rattle.other_abstract.specs.Lists.{window_in, IsScene};
ghost use Rattle.other_abstract.specs.Stepping.{all_may_hold};
ghost use Rattle.bit_encode.specs.Coding.{HasCells};
ghost use Rattle.bit_encode.specs.Terms.{TellsIn};

use crate::gates::{both, either};
use crate::read::CodedScene;
use crate::set::may_be;
use crate::term::term_set;
use circuit_core::{Circuit, Edge, Memory};
use lemma_strengthen::formula::Formula;
use other_abstract::node::AbsNode;
use other_abstract::places;
use sqlite_items::Items;
use std::alloc::Global;
use term_core::term::Term;

/// Nodes, and others after them.
pub(crate) fn joined(
    alloc: Global,
    front: &[AbsNode],
    back: &[AbsNode],
) -> Result<Vec<AbsNode>, Memory>
    ensures { IfOk result (λ out. out.items ≡ front.now ++ back.now) }
{
    let mut out = Vec::from_slice(alloc, front)?;
    out.extend_from_slice(back)?;
    Ok(out)
}

/// The lists of so many of these nodes, the first slowest.
fn lists_of(alloc: Global, nodes: &[AbsNode], count: u32) -> Result<Vec<Items<AbsNode>>, Memory>
    ensures { IfOk result (λ out. out.items ≡ lists_of nodes.now count) }
{
    match places::lists_of(alloc, nodes, count) {
        Ok(lists) => Ok(lists),
        Err(_) => Err(Memory),
    }
}

/// Where a term may be true, or may be anything else, with these nodes for its variables.
pub fn may_be_at(
    alloc: Global,
    circuit: &mut Circuit,
    scene: &CodedScene,
    front: &[AbsNode],
    back: &[AbsNode],
    body: &Term,
    wanted: bool,
) -> Result<Edge, Memory>
    requires scene { IsScene scene.now.window }
    requires cells { HasCells circuit.old scene.now.cells.now }
    ensures tells { IfOk result (λ e. TellsIn circuit.new scene.now.cells.now e
        (λ w. may (window_in scene.now.window) w (front.now ++ back.now) body.now (passes wanted))) }
    ensures edge { IfOk result (λ e. IsEdge circuit.new e) }
    ensures keeps { KeepsEdges circuit.old circuit.new }
{
    let mut env = joined(alloc, front, back)?;
    let values = term_set(alloc, circuit, scene, &mut env, body)?;
    let e = may_be(circuit, values.members(), wanted)?;
    Ok(e)
}

/// Where a term may be true with each of these lists for its variables.
fn may_hold_at(
    alloc: Global,
    circuit: &mut Circuit,
    scene: &CodedScene,
    lists: &[Items<AbsNode>],
    body: &Term,
) -> Result<Edge, Memory>
    requires scene { IsScene scene.now.window }
    requires cells { HasCells circuit.old scene.now.cells.now }
    ensures tells { IfOk result (λ e. TellsIn circuit.new scene.now.cells.now e
        (λ w. list_all (λ ns. may (window_in scene.now.window) w ns body.now (passes true)) lists.now)) }
    ensures edge { IfOk result (λ e. IsEdge circuit.new e) }
    ensures keeps { KeepsEdges circuit.old circuit.new }
{
    let mut all = Circuit::truth(true);
    for list in lists {
        let one = may_be_at(alloc, circuit, scene, &[], list.as_slice(), body, true)?;
        all = both(circuit, all, one)?;
    }
    Ok(all)
}

/// Where a term may be anything but true with one of these lists behind the first nodes.
pub fn may_fail_at(
    alloc: Global,
    circuit: &mut Circuit,
    scene: &CodedScene,
    front: &[AbsNode],
    lists: &[Items<AbsNode>],
    body: &Term,
) -> Result<Edge, Memory>
    requires scene { IsScene scene.now.window }
    requires cells { HasCells circuit.old scene.now.cells.now }
    ensures tells { IfOk result (λ e. TellsIn circuit.new scene.now.cells.now e
        (λ w. list_any (λ ns. may (window_in scene.now.window) w (front.now ++ ns) body.now (passes false)) lists.now)) }
    ensures edge { IfOk result (λ e. IsEdge circuit.new e) }
    ensures keeps { KeepsEdges circuit.old circuit.new }
{
    let mut any = Circuit::truth(false);
    for list in lists {
        let one = may_be_at(alloc, circuit, scene, front, list.as_slice(), body, false)?;
        any = either(circuit, any, one)?;
    }
    Ok(any)
}

/// Where a formula may hold for all nodes of the window.
fn may_hold(
    alloc: Global,
    circuit: &mut Circuit,
    scene: &CodedScene,
    formula: &Formula,
) -> Result<Edge, Memory>
    requires scene { IsScene scene.now.window }
    requires cells { HasCells circuit.old scene.now.cells.now }
    ensures tells { IfOk result (λ e. TellsIn circuit.new scene.now.cells.now e
        (λ w. may_hold (window_in scene.now.window) w formula.now.prefix formula.now.body)) }
    ensures edge { IfOk result (λ e. IsEdge circuit.new e) }
    ensures keeps { KeepsEdges circuit.old circuit.new }
{
    let lists = lists_of(alloc, scene.window.nodes, formula.prefix)?;
    let e = may_hold_at(alloc, circuit, scene, lists.as_slice(), &formula.body)?;
    Ok(e)
}

/// Where all formulas may hold for all nodes of the window.
pub fn all_may_hold(
    alloc: Global,
    circuit: &mut Circuit,
    scene: &CodedScene,
    formulas: &[Formula],
) -> Result<Edge, Memory>
    requires scene { IsScene scene.now.window }
    requires cells { HasCells circuit.old scene.now.cells.now }
    ensures tells { IfOk result (λ e. TellsIn circuit.new scene.now.cells.now e
        (λ w. all_may_hold (window_in scene.now.window) w formulas.now)) }
    ensures edge { IfOk result (λ e. IsEdge circuit.new e) }
    ensures keeps { KeepsEdges circuit.old circuit.new }
{
    let mut all = Circuit::truth(true);
    for formula in formulas {
        let one = may_hold(alloc, circuit, scene, formula)?;
        all = both(circuit, all, one)?;
    }
    Ok(all)
}

/// Where a formula may be false for some nodes of the window.
fn may_fail(
    alloc: Global,
    circuit: &mut Circuit,
    scene: &CodedScene,
    formula: &Formula,
) -> Result<Edge, Memory>
    requires scene { IsScene scene.now.window }
    requires cells { HasCells circuit.old scene.now.cells.now }
    ensures tells { IfOk result (λ e. TellsIn circuit.new scene.now.cells.now e
        (λ w. may_fail (window_in scene.now.window) w formula.now.prefix formula.now.body)) }
    ensures edge { IfOk result (λ e. IsEdge circuit.new e) }
    ensures keeps { KeepsEdges circuit.old circuit.new }
{
    let lists = lists_of(alloc, scene.window.nodes, formula.prefix)?;
    let e = may_fail_at(alloc, circuit, scene, &[], lists.as_slice(), &formula.body)?;
    Ok(e)
}

/// Where some formula may be false for some nodes of the window: of a window of the kept nodes alone, where the
/// state violates a formula.
pub fn some_may_fail(
    alloc: Global,
    circuit: &mut Circuit,
    scene: &CodedScene,
    formulas: &[Formula],
) -> Result<Edge, Memory>
    requires scene { IsScene scene.now.window }
    requires cells { HasCells circuit.old scene.now.cells.now }
    ensures tells { IfOk result (λ e. TellsIn circuit.new scene.now.cells.now e
        (λ w. list_any (λ (f : FormulaOf). may_fail (window_in scene.now.window) w f.prefix f.body) formulas.now)) }
    ensures edge { IfOk result (λ e. IsEdge circuit.new e) }
    ensures keeps { KeepsEdges circuit.old circuit.new }
{
    let mut any = Circuit::truth(false);
    for formula in formulas {
        let one = may_fail(alloc, circuit, scene, formula)?;
        any = either(circuit, any, one)?;
    }
    Ok(any)
}
