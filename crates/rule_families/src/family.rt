//! The families of cells: for each global each way down to a simple type, with a value for each index that is no
//! node.

#![tactic(auto, using(crate::proofs::WayEquations::walking))]

ghost use Rattle.std.specs.Prelude.{◌≡◌, ◌++◌, ◌∷◌, [], map, IfOk};
ghost use Rattle.murphi_typed.specs.Families.{Into, Over, axes_of};
ghost use Rattle.rule_inline.specs.Machine.{families_of};
ghost use Rattle.rule_parts.specs.Seen.{seen_step, seen_family};
ghost use Rattle.rule_families.specs.Choices.{seen_key};
ghost use Rattle.rule_families.specs.Under.{keyed, families_on, families_under, fields_under, families_from};

use crate::key::{Key, keys};
use murphi_ast::text::Text;
use murphi_typed::protocol::{Typed, Variable};
use murphi_typed::types::{AnyType, Field, Simple};
use rule_parts::family::{Family, Step};
use rule_parts::place::copy_text;
use rule_terms::build::added;
use sqlite_items::Items;
use std::alloc::Global;
use term_core::text::Memory;

fn copy_step(alloc: Global, s: &Step) -> Result<Step, Memory>
    ensures { IfOk result (λ out. out ≡ s.now) }
{
    match s {
        Step::Into(name) => {
            let name = copy_text(alloc, name)?;
            Ok(Step::Into(name))
        }
        Step::Over(index) => Ok(Step::Over(*index)),
    }
}

fn copy_steps(alloc: Global, all: &[Step]) -> Result<Items<Step>, Memory>
    ensures { IfOk result (λ out. out ≡ all.now) }
{
    let mut out = Items::new(alloc);
    for one in all {
        let copied = copy_step(alloc, one)?;
        out.push(copied)?;
    }
    Ok(out)
}

fn into_field(alloc: Global, steps: &[Step], name: &Text) -> Result<Items<Step>, Memory>
    ensures { IfOk result (λ out. map seen_step out ≡ map seen_step steps.now ++ Into name.now ∷ []) }
{
    let mut out = copy_steps(alloc, steps)?;
    let name = copy_text(alloc, name)?;
    out.push(Step::Into(name))?;
    Ok(out)
}

fn over_items(alloc: Global, steps: &[Step], index: Simple) -> Result<Items<Step>, Memory>
    ensures { IfOk result (λ out. map seen_step out ≡ map seen_step steps.now ++ Over index ∷ []) }
{
    let mut out = copy_steps(alloc, steps)?;
    out.push(Step::Over(index))?;
    Ok(out)
}

/// The index types on a way down.
fn axes_of(alloc: Global, steps: &[Step]) -> Result<Items<Simple>, Memory>
    ensures { IfOk result (λ out. out ≡ axes_of (map seen_step steps.now)) }
{
    let mut out = Items::new(alloc);
    for step in steps {
        match step {
            Step::Into(_) => {}
            Step::Over(index) => out.push(*index)?,
        }
    }
    Ok(out)
}

fn one_family(
    alloc: Global,
    global: u32,
    steps: &[Step],
    leaf: Simple,
    key: Key,
) -> Result<Family, Memory>
    ensures { IfOk result (λ f. seen_family f ≡ keyed global (map seen_step steps.now) leaf (seen_key key)) }
{
    let steps = copy_steps(alloc, steps)?;
    Ok(Family {
        global,
        steps,
        key: key.parts,
        of: leaf,
    })
}

/// The families with these choices for the indices, after others.
fn with_keys(
    alloc: Global,
    front: Items<Family>,
    global: u32,
    steps: &[Step],
    leaf: Simple,
    all: &[Key],
) -> Result<Items<Family>, Memory>
    ensures { IfOk result (λ out. map seen_family out ≡ map seen_family front ++ map (keyed global (map seen_step steps.now) leaf) (map seen_key all.now)) }
{
    let mut out = front;
    for key in all {
        let copied = copy_key(alloc, key)?;
        let f = one_family(alloc, global, steps, leaf, copied)?;
        out.push(f)?;
    }
    Ok(out)
}

fn copy_key(alloc: Global, key: &Key) -> Result<Key, Memory>
    ensures { IfOk result (λ out. seen_key out ≡ seen_key key.now) }
{
    let parts = Items::from_slice(alloc, key.parts.as_slice())?;
    Ok(Key { parts })
}

/// The families on one way down.
fn on_way(
    alloc: Global,
    front: Items<Family>,
    global: u32,
    steps: &[Step],
    leaf: Simple,
) -> Result<Items<Family>, Memory>
    ensures { IfOk result (λ out. map seen_family out ≡ map seen_family front ++ families_on global (map seen_step steps.now) leaf) }
{
    let axes = axes_of(alloc, steps)?;
    let all = keys(alloc, axes.as_slice())?;
    let out = with_keys(alloc, front, global, steps, leaf, all.as_slice())?;
    Ok(out)
}

/// The families under a way down to a type.
#[cycle(under)]
fn under(
    alloc: Global,
    of: &AnyType,
    front: Items<Family>,
    global: u32,
    steps: &[Step],
) -> Result<Items<Family>, Memory>
    ensures { IfOk result (λ out. map seen_family out ≡ map seen_family front ++ families_under global (map seen_step steps.now) of.now) }
{
    match of {
        AnyType::Simple(leaf) => {
            let out = on_way(alloc, front, global, steps, *leaf)?;
            Ok(out)
        }
        AnyType::Record { fields } => {
            let out = under_fields(alloc, fields.as_slice(), front, global, steps)?;
            Ok(out)
        }
        AnyType::Array { index, item } => {
            let steps = over_items(alloc, steps, *index)?;
            let out = under(alloc, item.get(), front, global, steps.as_slice())?;
            Ok(out)
        }
    }
}

#[cycle(under)]
fn under_fields(
    alloc: Global,
    fields: &[Field],
    front: Items<Family>,
    global: u32,
    steps: &[Step],
) -> Result<Items<Family>, Memory>
    ensures { IfOk result (λ out. map seen_family out ≡ map seen_family front ++ fields_under global (map seen_step steps.now) fields.now) }
{
    let mut out = front;
    for field in fields {
        let inner = into_field(alloc, steps, &field.name)?;
        out = under(alloc, &field.of, out, global, inner.as_slice())?;
    }
    Ok(out)
}

/// The families of globals, numbered from 0.
fn families_from(alloc: Global, all: &[Variable]) -> Result<Items<Family>, Memory>
    ensures { IfOk result (λ out. map seen_family out ≡ families_from 0 all.now) }
{
    let mut out = Items::new(alloc);
    let top: Items<Step> = Items::new(alloc);
    let mut number = 0u32;
    for v in all {
        out = under(alloc, &v.of, out, number, top.as_slice())?;
        number = added(number, 1)?;
    }
    Ok(out)
}

/// The families of a protocol's globals, in the order of their numbers.
pub fn families(alloc: Global, typed: &Typed) -> Result<Items<Family>, Memory>
    ensures { IfOk result (λ out. map seen_family out ≡ families_of typed.now) }
{
    let out = families_from(alloc, typed.globals.as_slice())?;
    Ok(out)
}
