//! The values that cells may have in a window, in the order in which their positions code them.

#![tactic(auto, using(crate::proofs::ValueLemmas::listing))]

ghost use Rattle.std.specs.Prelude.{◌≡◌, ◌≤◌, ◌-ℤ◌, ◌+ℤ◌, ◌≤ℤ◌, pos, map, IsTrue, ◌++◌, ◌∷◌, [], IfOk, OnOk};
ghost use Rattle.term_core.specs.Nodes.{nodes_from};
ghost use Rattle.term_core.specs.Whole.{members_in_range};
ghost use Rattle.other_abstract.specs.declared.node.AbsNode.TheVariants.{Other};
ghost use Rattle.other_abstract.specs.declared.value.AbsValue.TheVariants.{Number, Member, Node};
ghost use Rattle.other_abstract.specs.Tests.{ints_from, count_of, values_of, any_values};
ghost use Rattle.other_abstract.specs.Lists.{window_in, IsScene};
ghost use Rattle.bit_encode.specs.Codes.{cell_values};

use circuit_core::Memory;
use other_abstract::node::AbsNode;
use other_abstract::scene::Scene;
use other_abstract::value::AbsValue;
use std::alloc::Global;
use term_core::machine::CellFamily;
use term_core::value::Sort;

/// How many numbers a range has that has some.
fn range_count(low: i16, high: i16) -> u32
    requires { low ≤ℤ high }
    ensures { low +ℤ pos result ≡ high +ℤ pos 1 }
{
    u32::from(high.abs_diff(low)) + 1
}

/// The number so many after the first of a range.
fn number_at(low: i16, step: u32, high: i16) -> i16
    requires { (low +ℤ pos step) ≤ℤ high }
    ensures { result ≡ low +ℤ pos step }
{
    (i32::from(low) + step as i32) as i16
}

/// Adds the numbers of a range.
fn add_range(out: &mut Vec<AbsValue>, low: i16, high: i16) -> Result<(), Memory>
    ensures { OnOk result (out.new.items
        ≡ out.old.items ++ map Number (ints_from low (count_of (high -ℤ low +ℤ pos 1)))) }
{
    if low > high {
        return Ok(());
    }
    let count = range_count(low, high);
    for step in 0..count {
        out.push(AbsValue::Number(number_at(low, step, high)))?;
    }
    Ok(())
}

/// Adds the members of a kind.
fn add_members(out: &mut Vec<AbsValue>, kind: u32, count: u16) -> Result<(), Memory>
    requires { count ≤ 256 }
    ensures { OnOk result (out.new.items ≡ out.old.items ++ map (λ index. Member kind index) (nodes_from 0 count)) }
{
    for index in 0..count {
        out.push(AbsValue::Member {
            kind,
            index: index as u8,
        })?;
    }
    Ok(())
}

/// Adds the nodes of the window, and Other.
fn add_nodes(out: &mut Vec<AbsValue>, nodes: &[AbsNode]) -> Result<(), Memory>
    ensures { OnOk result (out.new.items ≡ out.old.items ++ map Node (nodes.now ++ Other ∷ [])) }
{
    for node in nodes {
        out.push(AbsValue::Node(*node))?;
    }
    out.push(AbsValue::Node(AbsNode::Other))?;
    Ok(())
}

/// Adds the values of a sort.
pub fn add_sort(out: &mut Vec<AbsValue>, scene: &Scene, sort: &Sort) -> Result<(), Memory>
    requires scene { IsScene scene.now }
    requires members { IsTrue (members_in_range sort.now) }
    ensures { OnOk result (out.new.items ≡ out.old.items ++ values_of (window_in scene.now) sort.now) }
{
    match sort {
        Sort::Truth => {
            out.push(AbsValue::Truth(false))?;
            out.push(AbsValue::Truth(true))?;
            Ok(())
        }
        Sort::Range { low, high } => {
            add_range(out, *low, *high)?;
            Ok(())
        }
        Sort::Members { kind, count } => {
            add_members(out, *kind, *count)?;
            Ok(())
        }
        Sort::Node => {
            add_nodes(out, scene.nodes)?;
            Ok(())
        }
    }
}

/// The values that the cells of a family may have: undefined first, if they may be that.
pub fn cell_values(
    alloc: Global,
    scene: &Scene,
    family: &CellFamily,
) -> Result<Vec<AbsValue>, Memory>
    requires scene { IsScene scene.now }
    requires members { IsTrue (members_in_range family.now.sort) }
    ensures { IfOk result (λ out. out.items ≡ cell_values (window_in scene.now) family.now) }
{
    let mut out = Vec::new(alloc);
    if family.undefined {
        out.push(AbsValue::Undefined)?;
    }
    add_sort(&mut out, scene, &family.sort)?;
    Ok(out)
}

/// Any value that a read may give in some cell of this family: undefined, and the values of its sort.
pub fn any_values(alloc: Global, scene: &Scene, family: u32) -> Result<Vec<AbsValue>, Memory>
    requires { IsScene scene.now }
    ensures { IfOk result (λ out. out.items ≡ any_values (window_in scene.now) family) }
{
    let mut out = Vec::new(alloc);
    out.push(AbsValue::Undefined)?;
    let at = family as usize;
    if at < scene.families.len() {
        add_sort(&mut out, scene, &scene.families[at].sort)?;
    }
    Ok(out)
}
