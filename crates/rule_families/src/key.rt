//! Choices of values for indices and for parameters, with a hole for each that is a node.

#![tactic(auto, using(crate::proofs::KeyEquations::choosing))]

ghost use Rattle.std.specs.Prelude.{◌≡◌, ◌++◌, ◌∷◌, [], map, Some, IfOk};
ghost use Rattle.std.specs.List.{flat_map};
ghost use Rattle.murphi_typed.specs.Families.{choices};
ghost use Rattle.murphi_typed.specs.Values.{values};
ghost use Rattle.murphi_typed.specs.declared.types.Simple.TheVariants.{Node};
ghost use Rattle.rule_inline.specs.Machine.{fixed, instances};
ghost use Rattle.rule_families.specs.Choices.{seen_key, part_on, keys_on};

use murphi_typed::protocol::Parameter;
use murphi_typed::types::Simple;
use rule_terms::values::values;
use sqlite_items::Items;
use std::alloc::Global;
use term_core::text::Memory;
use term_core::value::Value;

/// A value for each index or parameter that is no node, and a hole for each that is.
#[derive(Drop)]
pub struct Key {
    pub parts: Items<Option<Value>>,
}

fn all_fixed(alloc: Global, vs: &[Value]) -> Result<Items<Option<Value>>, Memory>
    ensures { IfOk result (λ ps. ps ≡ map Some vs.now) }
{
    let mut out = Items::new(alloc);
    for v in vs {
        out.push(Some(*v))?;
    }
    Ok(out)
}

fn one_hole(alloc: Global) -> Result<Items<Option<Value>>, Memory>
    ensures { IfOk result (λ ps. ps ≡ map fixed (values 1 Node)) }
{
    let mut out = Items::new(alloc);
    out.push(None)?;
    Ok(out)
}

/// What an index of this type may be: one of its values, or a hole where it is a node.
fn parts(alloc: Global, over: Simple) -> Result<Items<Option<Value>>, Memory>
    ensures { IfOk result (λ ps. ps ≡ map fixed (values 1 over)) }
{
    match over {
        Simple::Node => {
            let out = one_hole(alloc)?;
            Ok(out)
        }
        Simple::Truth | Simple::Range { .. } | Simple::Listed { .. } | Simple::Scalarset { .. } => {
            let vs = values(alloc, over)?;
            let out = all_fixed(alloc, vs.as_slice())?;
            Ok(out)
        }
    }
}

fn with_part(alloc: Global, k: &Key, part: Option<Value>) -> Result<Key, Memory>
    ensures { IfOk result (λ out. seen_key out ≡ part_on (seen_key k.now) part) }
{
    let mut parts = Items::from_slice(alloc, k.parts.as_slice())?;
    parts.push(part)?;
    Ok(Key { parts })
}

fn with_parts(
    alloc: Global,
    front: Items<Key>,
    k: &Key,
    all: &[Option<Value>],
) -> Result<Items<Key>, Memory>
    ensures { IfOk result (λ out. map seen_key out ≡ map seen_key front ++ map (part_on (seen_key k.now)) all.now) }
{
    let mut out = front;
    for part in all {
        let one = with_part(alloc, k, *part)?;
        out.push(one)?;
    }
    Ok(out)
}

fn with_each(alloc: Global, ks: &[Key], all: &[Option<Value>]) -> Result<Items<Key>, Memory>
    ensures { IfOk result (λ out. map seen_key out ≡ keys_on (map seen_key ks.now) all.now) }
{
    let mut out = Items::new(alloc);
    for k in ks {
        out = with_parts(alloc, out, k, all)?;
    }
    Ok(out)
}

fn one_key(alloc: Global) -> Result<Items<Key>, Memory>
    ensures { IfOk result (λ out. map seen_key out ≡ [] ∷ []) }
{
    let mut out = Items::new(alloc);
    out.push(Key {
        parts: Items::new(alloc),
    })?;
    Ok(out)
}

/// All choices for these types, the first part slowest.
pub fn keys(alloc: Global, types: &[Simple]) -> Result<Items<Key>, Memory>
    ensures { IfOk result (λ out. map seen_key out ≡ map (map fixed) (choices 1 types.now)) }
{
    let mut out = one_key(alloc)?;
    for over in types {
        let all = parts(alloc, *over)?;
        out = with_each(alloc, out.as_slice(), all.as_slice())?;
    }
    Ok(out)
}

fn types_of(alloc: Global, params: &[Parameter]) -> Result<Items<Simple>, Memory>
    ensures { IfOk result (λ out. out ≡ map (λ p. p.over) params.now) }
{
    let mut out = Items::new(alloc);
    for p in params {
        out.push(p.over)?;
    }
    Ok(out)
}

/// The instances of a rule, a start or a formula with these parameters.
pub fn instances(alloc: Global, params: &[Parameter]) -> Result<Items<Key>, Memory>
    ensures { IfOk result (λ out. map seen_key out ≡ instances params.now) }
{
    let types = types_of(alloc, params)?;
    let out = keys(alloc, types.as_slice())?;
    Ok(out)
}
