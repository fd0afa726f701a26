//! States of a machine with a number of nodes: a value for each cell.

#![tactic(auto, using(crate::proofs::PlaceLemmas::places))]

ghost use Rattle.std.specs.Prelude.{◌≡◌, ◌+◌, ◌-◌, ◌*◌, ◌<◌, ◌≤◌, ◌^◌, ◌++◌, IfOk, OnOk, IsTrue, length, replicate, slice_get, unwrap_or};
ghost use Rattle.std.specs.List.{list_all};
ghost use Rattle.term_core.specs.declared.value.Value.TheVariants.{Undefined};
ghost use Rattle.term_core.specs.Nodes.{is_node};
ghost use Rattle.term_core.specs.Meaning.{index_of};
ghost use Rattle.term_core.specs.Variables.{has_axes};
ghost use Rattle.term_core.specs.Cells.{is_cell, may_have, with_cell, blank_value, blank_state, first_place, choice_place};
ghost use Rattle.term_core.specs.Views.{cells_of, places_from, cell_count};

use crate::machine::{CellFamily, TermMachine, copy_families};
use crate::text::Memory;
use crate::value::{Value, is_node};
use sqlite_items::Items;
use std::alloc::Global;
use std::marker::Model;

/// A state of a machine's families with so many nodes. Contracts see a `Situation`: the number of
/// nodes, the families, and the values of the cells in their order.
#[derive(Drop)]
pub struct NodeState {
    nodes: u32,
    families: Items<CellFamily>,
    firsts: Items<usize>,
    values: Items<Value>,
}

impl Model for NodeState {
    ghost use Rattle.term_core.specs.Views.{Situation, IsStored};

    ghost Value = { Situation };

    ghost view = { λ s. record { nodes = s.nodes; families = s.families; values = s.values } };

    ghost invariant = { λ s. IsStored s.nodes s.families s.firsts s.values };
}

/// Whether a family of this number has so many axes.
fn has_axes(families: &[CellFamily], family: usize, count: usize) -> bool
    ensures { result ≡ has_axes families.now family count }
{
    if family < families.len() {
        count == families[family].axes as usize
    } else {
        false
    }
}

/// How many cells a family with so many axes has.
fn power(nodes: u32, axes: u32) -> Result<usize, Memory>
    ensures { IfOk result (λ count. count ≡ nodes ^ axes) }
{
    match (nodes as usize).checked_pow(axes) {
        Some(count) => Ok(count),
        None => Err(Memory),
    }
}

/// How many cells the families have, if they are no more than 4,294,967,295.
fn count_cells(nodes: u32, families: &[CellFamily]) -> Result<u32, Memory>
    ensures { IfOk result (λ count. count ≡ cell_count nodes families.now) }
{
    let mut count: u32 = 0;
    for family in families {
        let own = power(nodes, family.axes)?;
        count = add(count, own)?;
    }
    Ok(count)
}

/// A count and cells more.
fn add(count: u32, more: usize) -> Result<u32, Memory>
    ensures { IfOk result (λ sum. sum ≡ count + more) }
{
    match u32::try_from(more) {
        Ok(more) => match count.checked_add(more) {
            Some(sum) => Ok(sum),
            None => Err(Memory),
        },
        Err(_) => Err(Memory),
    }
}

/// Adds a value so many times.
fn fill(values: &mut Items<Value>, count: usize, value: Value) -> Result<(), Memory>
    ensures { OnOk result (values.new ≡ values.old ++ replicate count value) }
{
    for _added in 0..count {
        values.push(value)?;
    }
    Ok(())
}

/// Adds where the cells of each family begin, and their values before anything is written.
fn lay_out(
    nodes: u32,
    families: &[CellFamily],
    firsts: &mut Items<usize>,
    values: &mut Items<Value>,
) -> Result<(), Memory>
    ensures firsts { OnOk result (firsts.new ≡ firsts.old ++ places_from nodes (length values.old) families.now) }
    ensures values { OnOk result (values.new ≡ values.old ++ blank_state nodes families.now) }
{
    for family in families {
        firsts.push(values.len())?;
        let count = power(nodes, family.axes)?;
        fill(values, count, family.blank())?;
    }
    Ok(())
}

impl NodeState {
    /// The state in which each cell is undefined, or 0 where it cannot be undefined. More than
    /// 4,294,967,295 cells are answered as want of memory, before any is taken.
    pub fn make(alloc: Global, machine: &TermMachine, nodes: u32) -> Result<NodeState, Memory>
        ensures nodes { IfOk result (λ s. s.nodes ≡ nodes) }
        ensures families { IfOk result (λ s. s.families ≡ machine.now.families) }
        ensures values { IfOk result (λ s. s.values ≡ blank_state nodes machine.now.families) }
    {
        let _count = count_cells(nodes, machine.families.as_slice())?;
        let families = copy_families(alloc, machine.families.as_slice())?;
        let mut firsts = Items::new(alloc);
        let mut values = Items::new(alloc);
        lay_out(nodes, families.as_slice(), &mut firsts, &mut values)?;
        Ok(NodeState {
            nodes,
            families,
            firsts,
            values,
        })
    }

    /// How many nodes there are.
    pub fn nodes(&self) -> u32
        ensures { result ≡ self.now.nodes }
    {
        self.nodes
    }

    /// The families of the cells.
    pub fn families(&self) -> &[CellFamily]
        ensures { result.now ≡ self.now.families }
    {
        self.families.as_slice()
    }

    /// The values of the cells, in the order of the cells.
    pub fn values(&self) -> &[Value]
        ensures { result.now ≡ self.now.values }
    {
        self.values.as_slice()
    }

    /// The value of a cell; undefined where there is no such cell.
    pub fn value(&self, family: u32, at: &[u32]) -> Value
        ensures { result ≡ cells_of self.now family at.now }
    {
        if !self.has_cell(family, at) {
            return Value::Undefined;
        }
        self.value_at(family, self.choice_place(at))
    }

    /// Gives one cell another value, which has to be one that it may have. It takes no memory.
    pub fn set(&mut self, family: u32, at: &[u32], value: Value)
        requires cell { IsTrue (is_cell self.old.nodes self.old.families family at.now) }
        requires allowed { IsTrue (may_have self.old.nodes self.old.families family value) }
        ensures nodes { self.new.nodes ≡ self.old.nodes }
        ensures families { self.new.families ≡ self.old.families }
        ensures values { self.new.values ≡ with_cell self.old.nodes self.old.families self.old.values family at.now value }
    {
        let place = self.first(family) + self.choice_place(at);
        self.values.set(place, value);
    }

    /// Whether there is a cell of this family at these nodes; it then has a place.
    pub fn has_cell(&self, family: u32, at: &[u32]) -> bool
        ensures value { result ≡ is_cell self.now.nodes self.now.families family at.now }
        ensures room { IsTrue result → first_place self.now.nodes self.now.families family + choice_place self.now.nodes at.now < length self.now.values }
        ensures fits { IsTrue result → self.now.nodes ^ length at.now < 2 ^ 64 }
    {
        if self.has_axes(family, at.len()) {
            self.are_nodes(at)
        } else {
            false
        }
    }

    /// Whether the cells of this family may have a value.
    pub fn may_have(&self, family: u32, value: Value) -> bool
        ensures { result ≡ may_have self.now.nodes self.now.families family value }
    {
        let families = self.families.as_slice();
        let family = family as usize;
        if family < families.len() {
            families[family].may_have(self.nodes, value)
        } else {
            false
        }
    }

    /// Whether a family of this number has so many axes; its cells then have places.
    pub(crate) fn has_axes(&self, family: u32, count: usize) -> bool
        ensures value { result ≡ has_axes self.now.families family count }
        ensures room { IsTrue result → first_place self.now.nodes self.now.families family + self.now.nodes ^ count ≤ length self.now.values }
        ensures small { length self.now.values < 2 ^ 32 }
    {
        has_axes(self.families.as_slice(), family as usize, count)
    }

    /// Whether each of these is one of the nodes.
    fn are_nodes(&self, at: &[u32]) -> bool
        ensures { result ≡ list_all (is_node self.now.nodes) at.now }
    {
        let count = self.nodes;
        at.iter().all(|n| is_node(count, *n))
    }

    /// Where the cells of a family begin.
    fn first(&self, family: u32) -> usize
        requires { family < length self.now.families }
        ensures { result ≡ first_place self.now.nodes self.now.families family }
    {
        self.firsts.as_slice()[family as usize]
    }

    /// The value at a place of a family.
    pub(crate) fn value_at(&self, family: u32, place: usize) -> Value
        requires family { family < length self.now.families }
        requires place { first_place self.now.nodes self.now.families family + place < length self.now.values }
        ensures { result ≡ unwrap_or (slice_get self.now.values (first_place self.now.nodes self.now.families family + place)) Undefined }
    {
        self.values.as_slice()[self.first(family) + place]
    }

    /// The node that a value is as an index.
    pub(crate) fn index(&self, value: Value) -> Option<u32>
        ensures { result ≡ index_of self.now.nodes value }
    {
        match value {
            Value::Node(n) => {
                if is_node(self.nodes, n) {
                    Some(n)
                } else {
                    None
                }
            }
            _ => None,
        }
    }

    /// The place of the nodes before this one and this node, given that of those before.
    pub(crate) fn lead_on(&self, place: usize, node: u32) -> usize
        requires node { IsTrue (is_node self.now.nodes node) }
        requires fits { place * self.now.nodes + (node - 1) < 2 ^ 64 }
        ensures { result ≡ place * self.now.nodes + (node - 1) }
    {
        place * self.nodes as usize + (node as usize - 1)
    }

    /// The place of the cell at these nodes in its family.
    fn choice_place(&self, at: &[u32]) -> usize
        requires nodes { IsTrue (list_all (is_node self.now.nodes) at.now) }
        requires fits { self.now.nodes ^ length at.now < 2 ^ 64 }
        ensures { result ≡ choice_place self.now.nodes at.now }
    {
        let mut place = 0;
        for node in at {
            place = self.lead_on(place, *node);
        }
        place
    }
}
