//! The second use of a name, found by hash.

#![tactic(auto, using(crate::proofs::UseLemmas::using_names))]

ghost use Rattle.std.specs.Prelude.{◌≡◌, ◌++◌, ◌∷◌, [], map, false, IfOk, OnOk};
ghost use Rattle.std.specs.List.{list_any};
ghost use Rattle.std.specs.Str.{bytes_eq};
ghost use Rattle.job_files.specs.Told.{flow_name, lemma_name, second_use};
ghost use Rattle.job_files.specs.Uses.{names_in};

use indexmap::IndexMap;
use murphi_ast::job::{Flow, Lemma};
use murphi_ast::text::{Memory, Text};
use murphi_ast::token::Span;
use std::alloc::Global;

/// Whether a name was used before.
fn is_used(used: &IndexMap<Vec<u8>, bool>, name: &Text) -> bool
    ensures { result ≡ list_any (bytes_eq name.now) (names_in used.now.entries) }
{
    used.contains_key(name.bytes())
}

/// The bytes of a name.
fn bytes_of(alloc: Global, name: &Text) -> Result<Vec<u8>, Memory>
    ensures { IfOk result (λ v. v.items ≡ name.now) }
{
    let bytes = name.bytes().to_vec(alloc)?;
    Ok(bytes)
}

/// Keeps a name that was not used before.
fn keep(alloc: Global, used: &mut IndexMap<Vec<u8>, bool>, name: &Text) -> Result<(), Memory>
    ensures { OnOk result (list_any (bytes_eq name.now) (names_in used.old.entries) ≡ false → names_in
        used.new.entries ≡ names_in used.old.entries ++ name.now ∷ []) }
{
    let key = bytes_of(alloc, name)?;
    match used.insert(key, true) {
        Ok(_) => return Ok(()),
        Err(_) => return Err(Memory),
    }
}

/// The place of the first name of a lemma that an earlier one has.
pub(crate) fn second_lemma(alloc: Global, all: &[Lemma]) -> Result<Option<Span>, Memory>
    ensures { IfOk result (λ o. o ≡ second_use (map lemma_name all.now)) }
{
    let mut used: IndexMap<Vec<u8>, bool> = IndexMap::new(alloc);
    for lemma in all {
        if is_used(&used, &lemma.name.name) {
            return Ok(Some(lemma.name.at));
        }
        keep(alloc, &mut used, &lemma.name.name)?;
    }
    Ok(None)
}

/// The place of the first name of a flow that an earlier one has.
pub(crate) fn second_flow(alloc: Global, all: &[Flow]) -> Result<Option<Span>, Memory>
    ensures { IfOk result (λ o. o ≡ second_use (map flow_name all.now)) }
{
    let mut used: IndexMap<Vec<u8>, bool> = IndexMap::new(alloc);
    for flow in all {
        if is_used(&used, &flow.name.name) {
            return Ok(Some(flow.name.at));
        }
        keep(alloc, &mut used, &flow.name.name)?;
    }
    Ok(None)
}
