//! Whether states are as starts, steps and formulas ask, in scenes.

#![tactic(auto, using(crate::proofs::StepLemmas::stepping))]

ghost use Rattle.std.specs.Prelude.{◌≡◌, Bool, true, false, [], ◌∷◌, ◌++◌, map, IfOk};
ghost use Rattle.std.specs.List.{list_all, list_any};
ghost use Rattle.term_core.specs.Firing.{update_for};
ghost use Rattle.other_abstract.specs.declared.node.AbsNode.{AbsNode};
ghost use Rattle.other_abstract.specs.declared.value.AbsValue.{AbsValue};
ghost use Rattle.other_abstract.specs.Windows.{same_value};
ghost use Rattle.other_abstract.specs.Tests.{passes, may, may_hold};
ghost use Rattle.other_abstract.specs.Lists.{window_in, IsScene};
ghost use Rattle.other_abstract.specs.Machines.{read_kept, fired_of};
ghost use Rattle.other_abstract.specs.Stepping.{same_values, kept_value, may_become, becomes, all_may_hold};
ghost use Rattle.other_abstract.specs.Stepping.{AreNewValues};

use crate::evaluate::evaluate;
use crate::node::AbsNode;
use crate::place::Place;
use crate::places::{joined, lists_of};
use crate::read::cell_value;
use crate::scene::Scene;
use crate::set::ValueSet;
use crate::value::AbsValue;
use lemma_strengthen::formula::Formula;
use sqlite_items::Items;
use std::alloc::Global;
use term_core::machine::Update;
use term_core::term::Term;
use term_core::text::Memory;

/// How many fired nodes a pattern uses.
pub(crate) fn fired_of(pattern: &[AbsNode]) -> u8
    ensures { result ≡ fired_of pattern.now }
{
    let mut fired: u8 = 0;
    for node in pattern {
        if let AbsNode::Fired(k) = node {
            fired = fired.max(*k);
        }
    }
    fired
}

/// A value as the kept nodes see it: a fired node is read as Other.
pub(crate) fn read_kept(value: AbsValue) -> AbsValue
    ensures { result ≡ read_kept value }
{
    match value {
        AbsValue::Node(AbsNode::Fired(_)) => AbsValue::Node(AbsNode::Other),
        _ => value,
    }
}

/// Whether two lists of values are one.
pub(crate) fn are_same(left: &[AbsValue], right: &[AbsValue]) -> bool
    ensures { result ≡ same_values left.now right.now }
{
    if left.len() != right.len() {
        return false;
    }
    for at in 0..left.len() {
        if !left[at].is_same(right[at]) {
            return false;
        }
    }
    true
}

/// The value of a cell, fired nodes read as Other.
fn kept_value(scene: &Scene, place: &Place) -> AbsValue
    requires { IsScene scene.now }
    ensures { result ≡ kept_value (window_in scene.now) scene.now.cells.now place.now }
{
    read_kept(cell_value(scene, place.family, place.at.as_slice()))
}

/// The values of these cells, fired nodes read as Other.
pub(crate) fn kept_values(
    alloc: Global,
    scene: &Scene,
    places: &[Place],
) -> Result<Vec<AbsValue>, Memory>
    requires { IsScene scene.now }
    ensures { IfOk result (λ out. out.items ≡ map (kept_value (window_in scene.now) scene.now.cells.now) places.now) }
{
    let mut out = Vec::new(alloc);
    for place in places {
        out.push(kept_value(scene, place))?;
    }
    Ok(out)
}

/// Whether a term may be true, or may be anything else, with these nodes for its variables.
pub(crate) fn may_be(
    alloc: Global,
    scene: &Scene,
    front: &[AbsNode],
    back: &[AbsNode],
    body: &Term,
    wanted: bool,
) -> Result<bool, Memory>
    requires { IsScene scene.now }
    ensures { IfOk result (λ b. b ≡ may (window_in scene.now) scene.now.cells.now (front.now
        ++ back.now) body.now (passes wanted)) }
{
    let mut env = joined(alloc, front, back)?;
    let values = evaluate(alloc, scene, &mut env, body)?;
    Ok(values.may_be(wanted))
}

/// Whether a term may be true with each of these lists for its variables.
fn may_hold_at(
    alloc: Global,
    scene: &Scene,
    lists: &[Items<AbsNode>],
    body: &Term,
) -> Result<bool, Memory>
    requires { IsScene scene.now }
    ensures { IfOk result (λ b. b
        ≡ list_all (λ ns. may (window_in scene.now) scene.now.cells.now ns body.now (passes true)) lists.now) }
{
    for list in lists {
        let holds = may_be(alloc, scene, &[], list.as_slice(), body, true)?;
        if !holds {
            return Ok(false);
        }
    }
    Ok(true)
}

/// Whether a term may be anything but true with one of these lists behind the first nodes.
pub(crate) fn may_fail_at(
    alloc: Global,
    scene: &Scene,
    front: &[AbsNode],
    lists: &[Items<AbsNode>],
    body: &Term,
) -> Result<bool, Memory>
    requires { IsScene scene.now }
    ensures { IfOk result (λ b. b ≡ list_any (λ ns. may (window_in scene.now) scene.now.cells.now (front.now
        ++ ns) body.now (passes false)) lists.now) }
{
    for list in lists {
        let fails = may_be(alloc, scene, front, list.as_slice(), body, false)?;
        if fails {
            return Ok(true);
        }
    }
    Ok(false)
}

/// Whether a formula may hold for all nodes of the window.
fn may_hold(alloc: Global, scene: &Scene, formula: &Formula) -> Result<bool, Memory>
    requires { IsScene scene.now }
    ensures { IfOk result (λ b. b
        ≡ may_hold (window_in scene.now) scene.now.cells.now formula.now.prefix formula.now.body) }
{
    let lists = lists_of(alloc, scene.nodes, formula.prefix)?;
    let b = may_hold_at(alloc, scene, lists.as_slice(), &formula.body)?;
    Ok(b)
}

/// Whether all formulas may hold for all nodes of the window.
pub(crate) fn all_may_hold(
    alloc: Global,
    scene: &Scene,
    formulas: &[Formula],
) -> Result<bool, Memory>
    requires { IsScene scene.now }
    ensures { IfOk result (λ b. b ≡ all_may_hold (window_in scene.now) scene.now.cells.now formulas.now) }
{
    for formula in formulas {
        let holds = may_hold(alloc, scene, formula)?;
        if !holds {
            return Ok(false);
        }
    }
    Ok(true)
}

/// The values that the update of a cell's family may have, if there is one.
pub(crate) fn updated(
    alloc: Global,
    scene: &Scene,
    pattern: &[AbsNode],
    updates: &[Update],
    place: &Place,
) -> Result<Option<ValueSet>, Memory>
    requires { IsScene scene.now }
    ensures { IfOk result (λ out. AreNewValues (window_in scene.now) scene.now.cells.now (pattern.now
        ++ place.now.at) (update_for updates.now place.now.family) out) }
{
    for update in updates {
        if update.family as usize == place.family {
            let mut env = joined(alloc, pattern, place.at.as_slice())?;
            let values = evaluate(alloc, scene, &mut env, &update.body)?;
            return Ok(Some(values));
        }
    }
    Ok(None)
}

/// Whether one of the values is this, fired nodes read as Other.
fn has_kept(values: &[AbsValue], wanted: AbsValue) -> bool
    ensures { result ≡ list_any (λ x. same_value (read_kept x) wanted) values.now }
{
    for value in values {
        if read_kept(*value).is_same(wanted) {
            return true;
        }
    }
    false
}

/// Whether a cell may become this.
fn may_become(
    alloc: Global,
    scene: &Scene,
    pattern: &[AbsNode],
    updates: &[Update],
    place: &Place,
    new: AbsValue,
) -> Result<bool, Memory>
    requires { IsScene scene.now }
    ensures { IfOk result (λ b. b
        ≡ may_become (window_in scene.now) scene.now.cells.now pattern.now
        (update_for updates.now place.now.family) place.now new) }
{
    let b = match updated(alloc, scene, pattern, updates, place)? {
        Some(values) => has_kept(values.values(), new),
        None => kept_value(scene, place).is_same(new),
    };
    Ok(b)
}

/// Whether each of these cells may become what it is in the next state.
pub(crate) fn all_become(
    alloc: Global,
    scene: &Scene,
    next: &Scene,
    pattern: &[AbsNode],
    updates: &[Update],
    places: &[Place],
) -> Result<bool, Memory>
    requires scene { IsScene scene.now }
    requires next { IsScene next.now }
    ensures { IfOk result (λ b. b
        ≡ list_all (becomes (window_in next.now)
        (window_in scene.now) scene.now.cells.now next.now.cells.now updates.now pattern.now) places.now) }
{
    for place in places {
        let new = cell_value(next, place.family, place.at.as_slice());
        let b = may_become(alloc, scene, pattern, updates, place, new)?;
        if !b {
            return Ok(false);
        }
    }
    Ok(true)
}
