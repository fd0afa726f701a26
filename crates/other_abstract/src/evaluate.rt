//! The values that a term may have in a state of a window. Each part is evaluated once, so this takes
//! no longer than the sets of its parts are large.

#![tactic(auto, using(crate::proofs::EvaluateLemmas::arms))]

ghost use Rattle.std.specs.Prelude.{◌≡◌, Bool, not, ◌&&◌, ◌||◌, [], ◌∷◌, ◌++◌, IfOk, OnOk};
ghost use Rattle.std.specs.List.{list_all, list_any};
ghost use Rattle.other_abstract.specs.declared.value.AbsValue.{AbsValue};
ghost use Rattle.other_abstract.specs.declared.node.AbsNode.TheVariants.{Other};
ghost use Rattle.other_abstract.specs.Windows.{constant};
ghost use Rattle.other_abstract.specs.May.{bound};
ghost use Rattle.other_abstract.specs.Tests.{window_nodes, passes, may};
ghost use Rattle.other_abstract.specs.Lists.{window_in, IsScene, AreValues, AreLeads};

use crate::combine::{calculated, chosen, compared, negated, ordered, single, verdict};
use crate::lead::{Lead, extended};
use crate::node::AbsNode;
use crate::read::read;
use crate::scene::Scene;
use crate::set::ValueSet;
use crate::value::AbsValue;
use sqlite_items::Items;
use std::alloc::Global;
use term_core::term::Term;
use term_core::text::Memory;
use term_core::value::Value;

/// A constant of a term, none of which is a node.
fn constant(value: Value) -> AbsValue
    ensures { result ≡ constant value }
{
    match value {
        Value::Undefined | Value::Node(_) => AbsValue::Undefined,
        Value::Truth(b) => AbsValue::Truth(b),
        Value::Number(z) => AbsValue::Number(z),
        Value::Member { kind, index } => AbsValue::Member { kind, index },
    }
}

/// The node of a variable; one that is not bound is undefined.
fn bound(env: &[AbsNode], number: u32) -> AbsValue
    ensures { result ≡ bound env.now number }
{
    let at = number as usize;
    if at < env.len() {
        AbsValue::Node(env[at])
    } else {
        AbsValue::Undefined
    }
}

/// Of parts: whether each may be so, and whether one may be otherwise.
#[derive(Clone, Copy)]
struct Tally {
    each: bool,
    other: bool,
}

/// The values that a term may have, with these nodes for its variables. The variables are left as they
/// were.
#[cycle(evaluate)]
pub(crate) fn evaluate(
    alloc: Global,
    scene: &Scene,
    env: &mut Vec<AbsNode>,
    t: &Term,
) -> Result<ValueSet, Memory>
    requires { IsScene scene.now }
    ensures values { IfOk result (λ out. AreValues (window_in scene.now) scene.now.cells.now env.old.items t.now out) }
    ensures env { OnOk result (env.new.items ≡ env.old.items) }
{
    match t {
        Term::Known(value) => {
            let out = single(alloc, constant(*value))?;
            Ok(out)
        }
        Term::Var(number) => {
            let out = single(alloc, bound(env.as_slice(), *number))?;
            Ok(out)
        }
        Term::Read { family, at } => {
            let leads = leads(alloc, scene, env, at.as_slice())?;
            let out = read(alloc, scene, *family, leads.as_slice())?;
            Ok(out)
        }
        Term::Not(body) => {
            let values = evaluate(alloc, scene, env, body.get())?;
            let out = negated(alloc, values.values())?;
            Ok(out)
        }
        Term::And(parts) => {
            let tally = tally_parts(alloc, scene, env, parts.as_slice(), true)?;
            let out = verdict(alloc, true, tally.each, tally.other)?;
            Ok(out)
        }
        Term::Or(parts) => {
            let tally = tally_parts(alloc, scene, env, parts.as_slice(), false)?;
            let out = verdict(alloc, false, tally.each, tally.other)?;
            Ok(out)
        }
        Term::If { test, yes, no } => {
            let test = evaluate(alloc, scene, env, test.get())?;
            let yes = evaluate(alloc, scene, env, yes.get())?;
            let no = evaluate(alloc, scene, env, no.get())?;
            let out = chosen(alloc, &test, yes.values(), no.values())?;
            Ok(out)
        }
        Term::Same { left, right } => {
            let left = evaluate(alloc, scene, env, left.get())?;
            let right = evaluate(alloc, scene, env, right.get())?;
            let out = compared(alloc, left.values(), right.values())?;
            Ok(out)
        }
        Term::Less { left, right } => {
            let left = evaluate(alloc, scene, env, left.get())?;
            let right = evaluate(alloc, scene, env, right.get())?;
            let out = ordered(alloc, left.values(), right.values())?;
            Ok(out)
        }
        Term::Arith { op, left, right } => {
            let left = evaluate(alloc, scene, env, left.get())?;
            let right = evaluate(alloc, scene, env, right.get())?;
            let out = calculated(alloc, *op, left.values(), right.values())?;
            Ok(out)
        }
        Term::Quantified { all, body } => {
            let tally = tally_nodes(alloc, scene, env, body.get(), *all)?;
            let out = verdict(alloc, *all, tally.each, tally.other)?;
            Ok(out)
        }
    }
}

/// Where the indices of a read may lead.
#[cycle(evaluate)]
fn leads(
    alloc: Global,
    scene: &Scene,
    env: &mut Vec<AbsNode>,
    at: &[Term],
) -> Result<Vec<Lead>, Memory>
    requires { IsScene scene.now }
    ensures leads { IfOk result (λ out. AreLeads
        (window_in scene.now) scene.now.cells.now env.old.items at.now out.items) }
    ensures env { OnOk result (env.new.items ≡ env.old.items) }
{
    let mut out = Vec::new(alloc);
    out.push(Lead::At(Items::new(alloc)))?;
    for index in at {
        let values = evaluate(alloc, scene, env, index)?;
        out = extended(alloc, out.as_slice(), values.values())?;
    }
    Ok(out)
}

/// Whether each of the terms may be this, and whether one may be anything else.
#[cycle(evaluate)]
fn tally_parts(
    alloc: Global,
    scene: &Scene,
    env: &mut Vec<AbsNode>,
    parts: &[Term],
    wanted: bool,
) -> Result<Tally, Memory>
    requires { IsScene scene.now }
    ensures each { IfOk result (λ out. out.each
        ≡ list_all (λ x. may (window_in scene.now) scene.now.cells.now env.old.items x (passes wanted)) parts.now) }
    ensures other { IfOk result (λ out. out.other
        ≡ list_any (λ x. may (window_in scene.now) scene.now.cells.now env.old.items x (passes
        (not wanted))) parts.now) }
    ensures env { OnOk result (env.new.items ≡ env.old.items) }
{
    let mut out = Tally {
        each: true,
        other: false,
    };
    for part in parts {
        let values = evaluate(alloc, scene, env, part)?;
        out = counted(out, &values, wanted);
    }
    Ok(out)
}

/// One part more.
fn counted(before: Tally, values: &ValueSet, wanted: bool) -> Tally
    ensures each { result.each ≡ (before.each && list_any (passes wanted) values.now) }
    ensures other { result.other ≡ (before.other || list_any (passes (not wanted)) values.now) }
{
    let so = values.may_be(wanted);
    let otherwise = values.may_be(!wanted);
    Tally {
        each: before.each && so,
        other: before.other || otherwise,
    }
}

/// The values that a term may have with this node as the next variable.
#[cycle(evaluate)]
fn evaluate_at(
    alloc: Global,
    scene: &Scene,
    env: &mut Vec<AbsNode>,
    node: AbsNode,
    body: &Term,
) -> Result<ValueSet, Memory>
    requires { IsScene scene.now }
    ensures values { IfOk result (λ out. AreValues (window_in scene.now) scene.now.cells.now (env.old.items
        ++ node ∷ []) body.now out) }
    ensures env { OnOk result (env.new.items ≡ env.old.items) }
{
    env.push(node)?;
    let out = evaluate(alloc, scene, env, body)?;
    let _bound = env.pop();
    Ok(out)
}

/// Whether a body may be this at each node of the window, and whether it may be anything else at one of
/// them or at Other.
#[cycle(evaluate)]
fn tally_nodes(
    alloc: Global,
    scene: &Scene,
    env: &mut Vec<AbsNode>,
    body: &Term,
    wanted: bool,
) -> Result<Tally, Memory>
    requires { IsScene scene.now }
    ensures each { IfOk result (λ out. out.each
        ≡ list_all (λ n. may (window_in scene.now) scene.now.cells.now (env.old.items
        ++ n ∷ []) body.now (passes wanted)) (window_nodes (window_in scene.now))) }
    ensures other { IfOk result (λ out. out.other
        ≡ list_any (λ n. may (window_in scene.now) scene.now.cells.now (env.old.items
        ++ n ∷ []) body.now (passes (not wanted))) (window_nodes (window_in scene.now) ++ Other ∷ [])) }
    ensures env { OnOk result (env.new.items ≡ env.old.items) }
{
    let mut out = Tally {
        each: true,
        other: false,
    };
    for node in scene.nodes {
        let values = evaluate_at(alloc, scene, env, *node, body)?;
        out = counted(out, &values, wanted);
    }
    let values = evaluate_at(alloc, scene, env, AbsNode::Other, body)?;
    let last = counted(out, &values, wanted);
    Ok(Tally {
        each: out.each,
        other: last.other,
    })
}
