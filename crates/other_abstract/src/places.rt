//! The cells of a window and choices of its nodes, in order.

#![tactic(auto, using(crate::proofs::PlaceLemmas::placing))]

ghost use Rattle.std.specs.Prelude.{◌≡◌, List, ◌∷◌, ◌++◌, map, IfOk, OnOk};
ghost use Rattle.std.specs.List.{flat_map};
ghost use Rattle.term_core.specs.Nodes.{nodes};
ghost use Rattle.other_abstract.specs.declared.node.AbsNode.{AbsNode};
ghost use Rattle.other_abstract.specs.declared.node.AbsNode.TheVariants.{Kept, Fired};
ghost use Rattle.other_abstract.specs.declared.place.Place.{Place};
ghost use Rattle.other_abstract.specs.Tests.{lists_of};
ghost use Rattle.other_abstract.specs.Places.{places_in};

use crate::node::AbsNode;
use crate::place::Place;
use sqlite_items::Items;
use std::alloc::Global;
use term_core::machine::CellFamily;
use term_core::text::Memory;

/// The nodes of a window, kept ones first.
pub fn window_nodes(alloc: Global, kept: u8, fired: u8) -> Result<Vec<AbsNode>, Memory>
    ensures { IfOk result (λ out. out.items ≡ map Kept (nodes kept) ++ map Fired (nodes fired)) }
{
    let mut out = Vec::new(alloc);
    for k in 0..kept {
        out.push(AbsNode::Kept(k + 1))?;
    }
    for j in 0..fired {
        out.push(AbsNode::Fired(j + 1))?;
    }
    Ok(out)
}

/// Nodes, and others after them.
pub fn joined(alloc: Global, front: &[AbsNode], back: &[AbsNode]) -> Result<Vec<AbsNode>, Memory>
    ensures { IfOk result (λ out. out.items ≡ front.now ++ back.now) }
{
    let mut out = Vec::from_slice(alloc, front)?;
    out.extend_from_slice(back)?;
    Ok(out)
}

/// The lists of so many of these nodes, the first slowest.
pub fn lists_of(alloc: Global, nodes: &[AbsNode], count: u32) -> Result<Vec<Items<AbsNode>>, Memory>
    ensures { IfOk result (λ out. out.items ≡ lists_of nodes.now count) }
{
    let mut out = Vec::new(alloc);
    out.push(Items::new(alloc))?;
    for step in 0..count {
        out = longer(alloc, nodes, out.as_slice())?;
    }
    Ok(out)
}

/// Each of these nodes before each of these lists.
fn longer(
    alloc: Global,
    nodes: &[AbsNode],
    rests: &[Items<AbsNode>],
) -> Result<Vec<Items<AbsNode>>, Memory>
    ensures { IfOk result (λ out. out.items ≡ flat_map (λ n. map (λ rest. n ∷ rest) rests.now) nodes.now) }
{
    let mut out = Vec::new(alloc);
    for node in nodes {
        add_headed(alloc, &mut out, *node, rests)?;
    }
    Ok(out)
}

/// Adds a node before each of these lists.
fn add_headed(
    alloc: Global,
    out: &mut Vec<Items<AbsNode>>,
    node: AbsNode,
    rests: &[Items<AbsNode>],
) -> Result<(), Memory>
    ensures { OnOk result (out.new.items ≡ out.old.items ++ map (λ rest. node ∷ rest) rests.now) }
{
    for rest in rests {
        let list = headed(alloc, node, rest.as_slice())?;
        out.push(list)?;
    }
    Ok(())
}

/// A node before others.
fn headed(alloc: Global, node: AbsNode, rest: &[AbsNode]) -> Result<Items<AbsNode>, Memory>
    ensures { IfOk result (λ out. out ≡ node ∷ rest.now) }
{
    let mut out = Vec::new(alloc);
    out.push(node)?;
    out.extend_from_slice(rest)?;
    Ok(Items::from_vec(out))
}

/// The cells of these families at these nodes.
pub fn places_in(
    alloc: Global,
    nodes: &[AbsNode],
    families: &[CellFamily],
) -> Result<Vec<Place>, Memory>
    ensures { IfOk result (λ out. out.items ≡ places_in nodes.now 0 families.now) }
{
    let mut out = Vec::new(alloc);
    for at in 0..families.len() {
        let lists = lists_of(alloc, nodes, families[at].axes)?;
        add_places(alloc, &mut out, at, lists.as_slice())?;
    }
    Ok(out)
}

/// Adds the cells of a family at each of these lists of nodes.
fn add_places(
    alloc: Global,
    out: &mut Vec<Place>,
    family: usize,
    lists: &[Items<AbsNode>],
) -> Result<(), Memory>
    ensures { OnOk result (out.new.items ≡ out.old.items
        ++ map (λ (at : List AbsNode). record { family = family; at = at }) lists.now) }
{
    for list in lists {
        let at = Items::from_slice(alloc, list.as_slice())?;
        out.push(Place { family, at })?;
    }
    Ok(())
}
