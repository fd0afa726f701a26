//! What reads may give.

#![tactic(auto, using(crate::proofs::ReadLemmas::reads))]

ghost use Rattle.std.specs.Prelude.{◌≡◌, ◌+◌, ◌-◌, ◌*◌, ◌≤◌, ◌^◌, ◌<◌, ℕ, Bool, ◌&&◌, ◌||◌, map, length, slice_get};
ghost use Rattle.std.specs.Prelude.{unwrap_or, IsTrue, [], ◌∷◌, ◌++◌, IfOk, OnOk, SomeIff, ◌+ℤ◌, ◌-ℤ◌, ◌≤ℤ◌, pos};
ghost use Rattle.std.specs.List.{list_all, list_any};
ghost use Rattle.term_core.specs.Nodes.{is_node, nodes_from};
ghost use Rattle.term_core.specs.Whole.{members_in_range};
ghost use Rattle.term_core.specs.Cells.{is_cell, first_place};
ghost use Rattle.other_abstract.specs.declared.value.AbsValue.{AbsValue};
ghost use Rattle.other_abstract.specs.declared.value.AbsValue.TheVariants.{Undefined, Number, Member, Node};
ghost use Rattle.other_abstract.specs.declared.node.AbsNode.TheVariants.{Other};
ghost use Rattle.other_abstract.specs.Windows.{size, node_number};
ghost use Rattle.other_abstract.specs.May.{value_at};
ghost use Rattle.other_abstract.specs.Tests.{window_nodes, ints_from, count_of, values_of, any_values, read_passes};
ghost use Rattle.other_abstract.specs.Lists.{window_in, choices_before, IsScene};

use crate::lead::Lead;
use crate::node::AbsNode;
use crate::scene::Scene;
use crate::set::ValueSet;
use crate::value::AbsValue;
use std::alloc::Global;
use term_core::machine::CellFamily;
use term_core::text::Memory;
use term_core::value::Sort;

/// The number of a node in a window of so many kept nodes: kept ones from 1 up, fired ones after them, and 0
/// for Other.
fn node_number(kept: u8, node: AbsNode) -> usize
    ensures { result ≡ node_number kept node }
{
    match node {
        AbsNode::Kept(k) => usize::from(k),
        AbsNode::Fired(k) => usize::from(kept) + usize::from(k),
        AbsNode::Other => 0,
    }
}

/// How many nodes a window has.
fn size(scene: &Scene) -> usize
    ensures { result ≡ size (window_in scene.now) }
{
    usize::from(scene.kept) + usize::from(scene.fired)
}

/// Whether all of these are numbered as nodes of the window.
fn are_numbered(scene: &Scene, nodes: &[AbsNode]) -> bool
    ensures { result ≡ list_all (is_node (size (window_in scene.now))) (map (node_number scene.now.kept) nodes.now) }
{
    for node in nodes {
        let number = node_number(scene.kept, *node);
        if number == 0 || size(scene) < number {
            return false;
        }
    }
    true
}

/// Whether there is a cell of this family at these nodes.
pub fn is_cell(scene: &Scene, family: usize, nodes: &[AbsNode]) -> bool
    ensures { result ≡ is_cell (size (window_in scene.now)) scene.now.families.now family (map (node_number
        scene.now.kept) nodes.now) }
{
    if family < scene.families.len() {
        if nodes.len() == scene.families[family].axes as usize {
            are_numbered(scene, nodes)
        } else {
            false
        }
    } else {
        false
    }
}

/// How many cells the families before this one have, if they are fewer than 2^64.
pub fn first_place(scene: &Scene, family: usize) -> Option<usize>
    ensures { let p = first_place (size (window_in scene.now)) scene.now.families.now family in SomeIff result
        (p < 2 ^ 64) p }
{
    let nodes = size(scene);
    let count = scene.families.len().min(family);
    let mut sum: usize = 0;
    for k in 0..count {
        match nodes.checked_pow(scene.families[k].axes) {
            Some(own) => match sum.checked_add(own) {
                Some(more) => sum = more,
                None => return None,
            },
            None => return None,
        }
    }
    Some(sum)
}

/// How many choices stand before that of one node more, if they are fewer than 2^64.
fn next_before(scene: &Scene, before: usize, node: AbsNode) -> Option<usize>
    ensures { let p = before * size (window_in scene.now) + (node_number scene.now.kept node - 1) in SomeIff
        result (p < 2 ^ 64) p }
{
    let own = node_number(scene.kept, node).saturating_sub(1);
    match before.checked_mul(size(scene)) {
        Some(product) => product.checked_add(own),
        None => None,
    }
}

/// How many choices of as many nodes stand before this one, if they are fewer than 2^64.
pub fn choice_place(scene: &Scene, nodes: &[AbsNode]) -> Option<usize>
    requires { 1 ≤ size (window_in scene.now) }
    ensures { let p = choices_before (size (window_in scene.now)) scene.now.kept 0 nodes.now in SomeIff result
        (p < 2 ^ 64) p }
{
    let mut before: usize = 0;
    for node in nodes {
        match next_before(scene, before, *node) {
            Some(more) => before = more,
            None => return None,
        }
    }
    Some(before)
}

/// The value at this place of the cells, if it is one of theirs.
fn value_there(cells: &[AbsValue], first: Option<usize>, choice: Option<usize>) -> AbsValue
    ensures { (f c : ℕ) → SomeIff first (f < 2 ^ 64) f → SomeIff choice (c < 2 ^ 64) c → result
        ≡ unwrap_or (slice_get cells.now (f + c)) Undefined }
{
    match (first, choice) {
        (Some(first), Some(choice)) => match first.checked_add(choice) {
            Some(place) => {
                if place < cells.len() {
                    cells[place]
                } else {
                    AbsValue::Undefined
                }
            }
            None => AbsValue::Undefined,
        },
        _ => AbsValue::Undefined,
    }
}

/// The value of the cell of a family at these nodes; undefined where there is no such cell.
pub fn cell_value(scene: &Scene, family: usize, nodes: &[AbsNode]) -> AbsValue
    requires { 1 ≤ size (window_in scene.now) }
    ensures { result ≡ value_at (window_in scene.now) scene.now.cells.now family nodes.now }
{
    if is_cell(scene, family, nodes) {
        let first = first_place(scene, family);
        let choice = choice_place(scene, nodes);
        value_there(scene.cells, first, choice)
    } else {
        AbsValue::Undefined
    }
}

/// How many numbers a range has that has some.
fn range_count(low: i16, high: i16) -> u32
    requires { low ≤ℤ high }
    ensures { low +ℤ pos result ≡ high +ℤ pos 1 }
{
    u32::from(high.abs_diff(low)) + 1
}

/// Adds the numbers of a range.
fn add_range(out: &mut ValueSet, low: i16, high: i16) -> Result<(), Memory>
    ensures { OnOk result ((p : AbsValue → Bool) → list_any p out.new
        ≡ (list_any p out.old || list_any p (map Number (ints_from low (count_of (high -ℤ low +ℤ pos 1)))))) }
{
    if low > high {
        return Ok(());
    }
    let count = range_count(low, high);
    for step in 0..count {
        out.add(AbsValue::Number(number_at(low, step, high)))?;
    }
    Ok(())
}

/// The number so many after the first of a range.
fn number_at(low: i16, step: u32, high: i16) -> i16
    requires { (low +ℤ pos step) ≤ℤ high }
    ensures { result ≡ low +ℤ pos step }
{
    (i32::from(low) + step as i32) as i16
}

/// Adds the members of a kind.
fn add_members(out: &mut ValueSet, kind: u32, count: u16) -> Result<(), Memory>
    requires { count ≤ 256 }
    ensures { OnOk result ((p : AbsValue → Bool) → list_any p out.new
        ≡ (list_any p out.old || list_any p (map (λ index. Member kind index) (nodes_from 0 count)))) }
{
    for index in 0..count {
        out.add(AbsValue::Member {
            kind,
            index: index as u8,
        })?;
    }
    Ok(())
}

/// Adds the nodes of the window, and Other.
fn add_nodes(out: &mut ValueSet, nodes: &[AbsNode]) -> Result<(), Memory>
    ensures { OnOk result ((p : AbsValue → Bool) → list_any p out.new
        ≡ (list_any p out.old || list_any p (map Node (nodes.now ++ Other ∷ [])))) }
{
    for node in nodes {
        out.add(AbsValue::Node(*node))?;
    }
    out.add(AbsValue::Node(AbsNode::Other))?;
    Ok(())
}

/// Adds the values of a sort.
fn add_sort(out: &mut ValueSet, scene: &Scene, sort: &Sort) -> Result<(), Memory>
    requires scene { IsScene scene.now }
    requires members { IsTrue (members_in_range sort.now) }
    ensures { OnOk result ((p : AbsValue → Bool) → list_any p out.new
        ≡ (list_any p out.old || list_any p (values_of (window_in scene.now) sort.now))) }
{
    match sort {
        Sort::Truth => {
            out.add(AbsValue::Truth(false))?;
            out.add(AbsValue::Truth(true))?;
            Ok(())
        }
        Sort::Range { low, high } => {
            add_range(out, *low, *high)?;
            Ok(())
        }
        Sort::Members { kind, count } => {
            add_members(out, *kind, *count)?;
            Ok(())
        }
        Sort::Node => {
            add_nodes(out, scene.nodes)?;
            Ok(())
        }
    }
}

/// Adds any value of a family, undefined included.
fn add_any(out: &mut ValueSet, scene: &Scene, family: u32) -> Result<(), Memory>
    requires { IsScene scene.now }
    ensures { OnOk result ((p : AbsValue → Bool) → list_any p out.new
        ≡ (list_any p out.old || list_any p (any_values (window_in scene.now) family))) }
{
    out.add(AbsValue::Undefined)?;
    let at = family as usize;
    if at < scene.families.len() {
        add_sort(out, scene, &scene.families[at].sort)?;
    }
    Ok(())
}

/// Adds what a read may give where its indices lead.
fn add_read(out: &mut ValueSet, scene: &Scene, family: u32, lead: &Lead) -> Result<(), Memory>
    requires { IsScene scene.now }
    ensures { OnOk result ((p : AbsValue → Bool) → list_any p out.new
        ≡ (list_any p out.old || read_passes (window_in scene.now) scene.now.cells.now family p lead.now)) }
{
    match lead {
        Lead::At(nodes) => {
            out.add(cell_value(scene, family as usize, nodes.as_slice()))?;
            Ok(())
        }
        Lead::Anywhere => {
            add_any(out, scene, family)?;
            Ok(())
        }
        Lead::Nowhere => {
            out.add(AbsValue::Undefined)?;
            Ok(())
        }
    }
}

/// What a read may give, wherever its indices may lead.
pub fn read(alloc: Global, scene: &Scene, family: u32, leads: &[Lead]) -> Result<ValueSet, Memory>
    requires { IsScene scene.now }
    ensures { IfOk result (λ out. (p : AbsValue → Bool) → list_any p out
        ≡ list_any (read_passes (window_in scene.now) scene.now.cells.now family p) leads.now) }
{
    let mut out = ValueSet::make(alloc);
    for lead in leads {
        add_read(&mut out, scene, family, lead)?;
    }
    Ok(out)
}
