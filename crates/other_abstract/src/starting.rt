//! Whether states are as starts leave them, in scenes whose cells are as before anything is written.

#![tactic(auto, using(crate::proofs::StepLemmas::stepping))]

ghost use Rattle.std.specs.Prelude.{◌≡◌, map, IfOk};
ghost use Rattle.std.specs.List.{list_all, list_any};
ghost use Rattle.term_core.specs.Firing.{update_for};
ghost use Rattle.other_abstract.specs.declared.value.AbsValue.{AbsValue};
ghost use Rattle.other_abstract.specs.Windows.{same_value, is_abs_node, is_of_sort, may_have};
ghost use Rattle.other_abstract.specs.Lists.{window_in, IsScene};
ghost use Rattle.other_abstract.specs.Machines.{read_kept, blank, blank_of, settled};
ghost use Rattle.other_abstract.specs.declared.place.Place.{Place};
ghost use Rattle.other_abstract.specs.Places.{places_in};
ghost use Rattle.other_abstract.specs.Stepping.{may_begin, begins, piece_may_fail};

use crate::node::AbsNode;
use crate::place::Place;
use crate::places::{lists_of, places_in};
use crate::read::cell_value;
use crate::scene::Scene;
use crate::stepping::{may_fail_at, read_kept, updated};
use crate::value::AbsValue;
use std::alloc::Global;
use term_core::machine::{CellFamily, Piece, Update};
use term_core::text::Memory;
use term_core::value::Sort;

/// The value of the cells of a family before anything is written.
pub fn blank_of(families: &[CellFamily], family: usize) -> AbsValue
    ensures { result ≡ blank_of families.now family }
{
    if family < families.len() {
        if families[family].undefined {
            AbsValue::Undefined
        } else {
            AbsValue::Number(0)
        }
    } else {
        AbsValue::Undefined
    }
}

/// The state of a window with these nodes before anything is written.
pub(crate) fn blank_cells(
    alloc: Global,
    nodes: &[AbsNode],
    families: &[CellFamily],
) -> Result<Vec<AbsValue>, Memory>
    ensures { IfOk result (λ out. out.items
        ≡ map (λ (place : Place). blank_of families.now place.family) (places_in nodes.now 0 families.now)) }
{
    let places = places_in(alloc, nodes, families)?;
    let out = blank_values(alloc, families, places.as_slice())?;
    Ok(out)
}

/// The values of these cells before anything is written.
fn blank_values(
    alloc: Global,
    families: &[CellFamily],
    places: &[Place],
) -> Result<Vec<AbsValue>, Memory>
    ensures { IfOk result (λ out. out.items ≡ map (λ (place : Place). blank_of families.now place.family) places.now) }
{
    let mut out = Vec::new(alloc);
    for place in places {
        out.push(blank_of(families, place.family))?;
    }
    Ok(out)
}

/// Whether this is a node of the window, or Other.
pub fn is_abs_node(scene: &Scene, node: AbsNode) -> bool
    ensures { result ≡ is_abs_node (window_in scene.now) node }
{
    match node {
        AbsNode::Kept(k) => 1 <= k && k <= scene.kept,
        AbsNode::Fired(k) => 1 <= k && k <= scene.fired,
        AbsNode::Other => true,
    }
}

/// Whether a value is of a sort, in the window.
pub fn is_of_sort(scene: &Scene, sort: &Sort, value: AbsValue) -> bool
    ensures { result ≡ is_of_sort (window_in scene.now) sort.now value }
{
    match (sort, value) {
        (Sort::Truth, AbsValue::Truth(_)) => true,
        (Sort::Range { low, high }, AbsValue::Number(z)) => *low <= z && z <= *high,
        (Sort::Members { kind, count }, AbsValue::Member { kind: other, index }) => {
            *kind == other && u16::from(index) < *count
        }
        (Sort::Node, AbsValue::Node(node)) => is_abs_node(scene, node),
        _ => false,
    }
}

/// Whether a cell of the family of this number may have a value.
pub fn may_have(scene: &Scene, family: usize, value: AbsValue) -> bool
    ensures { result ≡ may_have (window_in scene.now) family value }
{
    if family < scene.families.len() {
        match value {
            AbsValue::Undefined => scene.families[family].undefined,
            _ => is_of_sort(scene, &scene.families[family].sort, value),
        }
    } else {
        false
    }
}

/// A value, or undefined where the cells of the family cannot have it.
pub fn settled(scene: &Scene, family: usize, value: AbsValue) -> AbsValue
    ensures { result ≡ settled (window_in scene.now) family value }
{
    if may_have(scene, family, value) {
        value
    } else {
        AbsValue::Undefined
    }
}

/// Whether one of the values is this, fired nodes read as Other, and settled in the kept window.
pub fn has_settled(kept: &Scene, family: usize, values: &[AbsValue], wanted: AbsValue) -> bool
    ensures { result ≡ list_any (λ x. same_value (settled (window_in kept.now) family
        (read_kept x)) wanted) values.now }
{
    for value in values {
        if settled(kept, family, read_kept(*value)).is_same(wanted) {
            return true;
        }
    }
    false
}

/// Whether a start may give a cell this value.
fn may_begin(
    alloc: Global,
    scene: &Scene,
    kept: &Scene,
    pattern: &[AbsNode],
    updates: &[Update],
    place: &Place,
    new: AbsValue,
) -> Result<bool, Memory>
    requires scene { IsScene scene.now }
    requires cells { scene.now.cells.now ≡ blank (window_in scene.now) }
    ensures { IfOk result (λ b. b
        ≡ may_begin (window_in kept.now) (window_in scene.now) pattern.now
        (update_for updates.now place.now.family) place.now new) }
{
    let b = match updated(alloc, scene, pattern, updates, place)? {
        Some(values) => has_settled(kept, place.family, values.values(), new),
        None => blank_of(scene.families, place.family).is_same(new),
    };
    Ok(b)
}

/// Whether a start may give each of these cells the value that it has in the kept state.
pub(crate) fn all_begin(
    alloc: Global,
    scene: &Scene,
    kept: &Scene,
    pattern: &[AbsNode],
    updates: &[Update],
    places: &[Place],
) -> Result<bool, Memory>
    requires scene { IsScene scene.now }
    requires cells { scene.now.cells.now ≡ blank (window_in scene.now) }
    requires kept { IsScene kept.now }
    ensures { IfOk result (λ b. b
        ≡ list_all (begins (window_in kept.now)
        (window_in scene.now) kept.now.cells.now updates.now pattern.now) places.now) }
{
    for place in places {
        let new = cell_value(kept, place.family, place.at.as_slice());
        let b = may_begin(alloc, scene, kept, pattern, updates, place, new)?;
        if !b {
            return Ok(false);
        }
    }
    Ok(true)
}

/// Whether one of the pieces of a start may be false for some kept nodes.
pub(crate) fn pieces_may_fail(
    alloc: Global,
    scene: &Scene,
    kept: &Scene,
    pattern: &[AbsNode],
    pieces: &[Piece],
) -> Result<bool, Memory>
    requires scene { IsScene scene.now }
    requires cells { scene.now.cells.now ≡ blank (window_in scene.now) }
    requires kept { IsScene kept.now }
    ensures { IfOk result (λ b. b
        ≡ list_any (piece_may_fail (window_in kept.now) (window_in scene.now) pattern.now) pieces.now) }
{
    for piece in pieces {
        let fails = piece_may_fail(alloc, scene, kept, pattern, piece)?;
        if fails {
            return Ok(true);
        }
    }
    Ok(false)
}

/// Whether a piece of a start may be false for some kept nodes.
fn piece_may_fail(
    alloc: Global,
    scene: &Scene,
    kept: &Scene,
    pattern: &[AbsNode],
    piece: &Piece,
) -> Result<bool, Memory>
    requires scene { IsScene scene.now }
    requires cells { scene.now.cells.now ≡ blank (window_in scene.now) }
    requires kept { IsScene kept.now }
    ensures { IfOk result (λ b. b ≡ piece_may_fail (window_in kept.now) (window_in scene.now) pattern.now piece.now) }
{
    let lists = lists_of(alloc, kept.nodes, piece.binders)?;
    let b = may_fail_at(alloc, scene, pattern, lists.as_slice(), &piece.body)?;
    Ok(b)
}
