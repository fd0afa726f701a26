//! What terms may be, in circuits: the set of each term from those of its parts, so that this takes as many gates as
//! the sets of the parts are large.

#![tactic(auto, using(crate::proofs::Growing::growing, crate::proofs::TermLemmas::terms))]

ghost use Rattle.std.specs.Prelude.{◌≡◌, not, Bool, [], ◌∷◌, ◌++◌, IfOk, OnOk};
ghost use Rattle.std.specs.List.{list_all, list_any};
ghost use Rattle.circuit_core.specs.Network.{IsEdge};
ghost use Rattle.circuit_core.specs.Growth.{KeepsEdges};
ghost use Rattle.other_abstract.specs.declared.node.AbsNode.TheVariants.{Other};
ghost use Rattle.other_abstract.specs.Windows.{constant};
ghost use Rattle.other_abstract.specs.May.{bound};
ghost use Rattle.other_abstract.specs.Tests.{window_nodes, passes, may};
ghost use Rattle.other_abstract.specs.Lists.{window_in, IsScene};
ghost use Rattle.bit_encode.specs.MaySets.{HasEdges};
ghost use Rattle.bit_encode.specs.Coding.{HasCells};
ghost use Rattle.bit_encode.specs.Leads.{HasLeadEdges};
ghost use Rattle.bit_encode.specs.Terms.{IsMayIn, IsLedIn, TellsIn};

use crate::combine::{PairOp, chosen_by, negated, paired, single, verdict};
use crate::leads::{LeadSet, extended, no_index};
use crate::read::{CodedScene, read};
use crate::set::MaySet;
use crate::tally::{Tally, counted, counted_last};
use circuit_core::{Circuit, Memory};
use other_abstract::node::AbsNode;
use other_abstract::value::AbsValue;
use std::alloc::Global;
use term_core::term::Term;
use term_core::value::Value;

/// A constant of a term, none of which is a node.
fn constant(value: Value) -> AbsValue
    ensures { result ≡ constant value }
{
    match value {
        Value::Undefined | Value::Node(_) => AbsValue::Undefined,
        Value::Truth(b) => AbsValue::Truth(b),
        Value::Number(z) => AbsValue::Number(z),
        Value::Member { kind, index } => AbsValue::Member { kind, index },
    }
}

/// The node of a variable; one that is not bound is undefined.
fn bound(env: &[AbsNode], number: u32) -> AbsValue
    ensures { result ≡ bound env.now number }
{
    let at = number as usize;
    if at < env.len() {
        AbsValue::Node(env[at])
    } else {
        AbsValue::Undefined
    }
}

/// What a term may be, with these nodes for its variables: whatever state the sets of the cells code, the edge of a
/// value is true exactly where the term may have the value in that state. The variables are left as they were.
#[cycle(terms)]
pub fn term_set(
    alloc: Global,
    circuit: &mut Circuit,
    scene: &CodedScene,
    env: &mut Vec<AbsNode>,
    t: &Term,
) -> Result<MaySet, Memory>
    requires scene { IsScene scene.now.window }
    requires cells { HasCells circuit.old scene.now.cells.now }
    ensures may { IfOk result (λ out. IsMayIn circuit.new scene.now.cells.now
        (window_in scene.now.window) env.old.items t.now out) }
    ensures edges { IfOk result (λ out. HasEdges circuit.new out) }
    ensures keeps { KeepsEdges circuit.old circuit.new }
    ensures env { OnOk result (env.new.items ≡ env.old.items) }
{
    match t {
        Term::Known(value) => {
            let out = single(alloc, circuit, constant(*value))?;
            Ok(out)
        }
        Term::Var(number) => {
            let out = single(alloc, circuit, bound(env.as_slice(), *number))?;
            Ok(out)
        }
        Term::Read { family, at } => {
            let leads = leads(alloc, circuit, scene, env, at.as_slice())?;
            let out = read(alloc, circuit, scene, *family, leads.members())?;
            Ok(out)
        }
        Term::Not(body) => {
            let from = term_set(alloc, circuit, scene, env, body.get())?;
            let out = negated(alloc, circuit, from.members())?;
            Ok(out)
        }
        Term::And(parts) => {
            let tally = tally_parts(alloc, circuit, scene, env, parts.as_slice(), true)?;
            let out = verdict(alloc, circuit, true, tally.each, tally.other)?;
            Ok(out)
        }
        Term::Or(parts) => {
            let tally = tally_parts(alloc, circuit, scene, env, parts.as_slice(), false)?;
            let out = verdict(alloc, circuit, false, tally.each, tally.other)?;
            Ok(out)
        }
        Term::If { test, yes, no } => {
            let test = term_set(alloc, circuit, scene, env, test.get())?;
            let yes = term_set(alloc, circuit, scene, env, yes.get())?;
            let no = term_set(alloc, circuit, scene, env, no.get())?;
            let out = chosen_by(alloc, circuit, test.members(), yes.members(), no.members())?;
            Ok(out)
        }
        Term::Same { left, right } => {
            let left = term_set(alloc, circuit, scene, env, left.get())?;
            let right = term_set(alloc, circuit, scene, env, right.get())?;
            let out = paired(
                alloc,
                circuit,
                PairOp::Same,
                left.members(),
                right.members(),
            )?;
            Ok(out)
        }
        Term::Less { left, right } => {
            let left = term_set(alloc, circuit, scene, env, left.get())?;
            let right = term_set(alloc, circuit, scene, env, right.get())?;
            let out = paired(
                alloc,
                circuit,
                PairOp::Less,
                left.members(),
                right.members(),
            )?;
            Ok(out)
        }
        Term::Arith { op, left, right } => {
            let left = term_set(alloc, circuit, scene, env, left.get())?;
            let right = term_set(alloc, circuit, scene, env, right.get())?;
            let out = paired(
                alloc,
                circuit,
                PairOp::Arith(*op),
                left.members(),
                right.members(),
            )?;
            Ok(out)
        }
        Term::Quantified { all, body } => {
            let tally = tally_nodes(alloc, circuit, scene, env, body.get(), *all)?;
            let out = verdict(alloc, circuit, *all, tally.each, tally.other)?;
            Ok(out)
        }
    }
}

/// Where the indices of a read may lead.
#[cycle(terms)]
fn leads(
    alloc: Global,
    circuit: &mut Circuit,
    scene: &CodedScene,
    env: &mut Vec<AbsNode>,
    at: &[Term],
) -> Result<LeadSet, Memory>
    requires scene { IsScene scene.now.window }
    requires cells { HasCells circuit.old scene.now.cells.now }
    ensures leads { IfOk result (λ out. IsLedIn circuit.new scene.now.cells.now
        (window_in scene.now.window) env.old.items at.now out) }
    ensures edges { IfOk result (λ out. HasLeadEdges circuit.new out) }
    ensures keeps { KeepsEdges circuit.old circuit.new }
    ensures env { OnOk result (env.new.items ≡ env.old.items) }
{
    let mut out = no_index(alloc, circuit)?;
    for index in at {
        let values = term_set(alloc, circuit, scene, env, index)?;
        out = extended(alloc, circuit, out.members(), values.members())?;
    }
    Ok(out)
}

/// Whether each of the terms may be this, and whether one may be anything else.
#[cycle(terms)]
fn tally_parts(
    alloc: Global,
    circuit: &mut Circuit,
    scene: &CodedScene,
    env: &mut Vec<AbsNode>,
    parts: &[Term],
    wanted: bool,
) -> Result<Tally, Memory>
    requires scene { IsScene scene.now.window }
    requires cells { HasCells circuit.old scene.now.cells.now }
    ensures each { IfOk result (λ out. TellsIn circuit.new scene.now.cells.now out.each
        (λ w. list_all (λ x. may (window_in scene.now.window) w env.old.items x (passes wanted)) parts.now)) }
    ensures other { IfOk result (λ out. TellsIn circuit.new scene.now.cells.now out.other
        (λ w. list_any (λ x. may (window_in scene.now.window) w env.old.items x (passes (not wanted))) parts.now)) }
    ensures each_edge { IfOk result (λ out. IsEdge circuit.new out.each) }
    ensures other_edge { IfOk result (λ out. IsEdge circuit.new out.other) }
    ensures keeps { KeepsEdges circuit.old circuit.new }
    ensures env { OnOk result (env.new.items ≡ env.old.items) }
{
    let mut out = Tally {
        each: Circuit::truth(true),
        other: Circuit::truth(false),
    };
    for part in parts {
        let values = term_set(alloc, circuit, scene, env, part)?;
        out = counted(circuit, out, values.members(), wanted)?;
    }
    Ok(out)
}

/// What a term may be with this node as the next variable.
#[cycle(terms)]
fn term_set_at(
    alloc: Global,
    circuit: &mut Circuit,
    scene: &CodedScene,
    env: &mut Vec<AbsNode>,
    node: AbsNode,
    body: &Term,
) -> Result<MaySet, Memory>
    requires scene { IsScene scene.now.window }
    requires cells { HasCells circuit.old scene.now.cells.now }
    ensures may { IfOk result (λ out. IsMayIn circuit.new scene.now.cells.now
        (window_in scene.now.window) (env.old.items ++ node ∷ []) body.now out) }
    ensures edges { IfOk result (λ out. HasEdges circuit.new out) }
    ensures keeps { KeepsEdges circuit.old circuit.new }
    ensures env { OnOk result (env.new.items ≡ env.old.items) }
{
    env.push(node)?;
    let out = term_set(alloc, circuit, scene, env, body)?;
    let _bound = env.pop();
    Ok(out)
}

/// Whether a body may be this at each node of the window, and whether it may be anything else at one of them or
/// at Other.
#[cycle(terms)]
fn tally_nodes(
    alloc: Global,
    circuit: &mut Circuit,
    scene: &CodedScene,
    env: &mut Vec<AbsNode>,
    body: &Term,
    wanted: bool,
) -> Result<Tally, Memory>
    requires scene { IsScene scene.now.window }
    requires cells { HasCells circuit.old scene.now.cells.now }
    ensures each { IfOk result (λ out. TellsIn circuit.new scene.now.cells.now out.each
        (λ w. list_all (λ n. may (window_in scene.now.window) w (env.old.items ++ n ∷ []) body.now
        (passes wanted)) (window_nodes (window_in scene.now.window)))) }
    ensures other { IfOk result (λ out. TellsIn circuit.new scene.now.cells.now out.other
        (λ w. list_any (λ n. may (window_in scene.now.window) w (env.old.items ++ n ∷ []) body.now
        (passes (not wanted))) (window_nodes (window_in scene.now.window) ++ Other ∷ []))) }
    ensures each_edge { IfOk result (λ out. IsEdge circuit.new out.each) }
    ensures other_edge { IfOk result (λ out. IsEdge circuit.new out.other) }
    ensures keeps { KeepsEdges circuit.old circuit.new }
    ensures env { OnOk result (env.new.items ≡ env.old.items) }
{
    let mut out = Tally {
        each: Circuit::truth(true),
        other: Circuit::truth(false),
    };
    for node in scene.window.nodes {
        let values = term_set_at(alloc, circuit, scene, env, *node, body)?;
        out = counted(circuit, out, values.members(), wanted)?;
    }
    let values = term_set_at(alloc, circuit, scene, env, AbsNode::Other, body)?;
    let last = counted_last(circuit, out, values.members(), wanted)?;
    Ok(last)
}
