//! The families of a protocol's globals, and the terms before anything is done.

#![tactic(auto, using(crate::proofs::FamilyEquations::families))]

ghost use Rattle.std.specs.Prelude.{◌≡◌, map, IfOk};
ghost use Rattle.std.specs.Str.{bytes_eq};
ghost use Rattle.murphi_typed.specs.Families.{path_of};
ghost use Rattle.murphi_typed.specs.Steps.{same_list};
ghost use Rattle.rule_inline.specs.Machine.{same_part, slot_of, is_slot, number_of, own_read, first_terms};
ghost use Rattle.rule_parts.specs.Seen.{seen_owner, seen_slot, seen_step, seen_family};

use crate::place::{Owner, Slot, holes, is_same_owner, is_same_text};
use murphi_ast::text::Text;
use murphi_typed::types::Simple;
use rule_terms::build::{added, truth, undefined, variables};
use sqlite_items::Items;
use std::alloc::Global;
use term_core::term::Term;
use term_core::text::Memory;
use term_core::value::Value;

/// A step on the way down to a cell: into a field of a record, or to an item of an array with this index
/// type.
#[derive(Drop)]
pub enum Step {
    Into(Text),
    Over(Simple),
}

/// The cells of a global on one way down, with a value for each index that is no node.
#[derive(Drop)]
pub struct Family {
    pub global: u32,
    pub steps: Items<Step>,
    pub key: Items<Option<Value>>,
    pub of: Simple,
}

fn is_same_part(a: Option<Value>, b: Option<Value>) -> bool
    ensures { result ≡ same_part a b }
{
    match a {
        None => match b {
            None => true,
            Some(_) => false,
        },
        Some(v) => match b {
            None => false,
            Some(w) => v.is_same(w),
        },
    }
}

fn is_same_key(a: &[Option<Value>], b: &[Option<Value>]) -> bool
    ensures { result ≡ same_list same_part a.now b.now }
{
    for i in 0..a.len() {
        if i < b.len() {
            if !is_same_part(a[i], b[i]) {
                return false;
            }
        } else {
            return false;
        }
    }
    b.len() <= a.len()
}

fn is_same_path(steps: &[Step], path: &[Text]) -> bool
    ensures { result ≡ same_list bytes_eq (path_of (map seen_step steps.now)) path.now }
{
    let mut i = 0usize;
    for step in steps {
        match step {
            Step::Over(_) => {}
            Step::Into(name) => {
                if i < path.len() {
                    if !is_same_text(name, &path[i]) {
                        return false;
                    }
                    i += 1;
                } else {
                    return false;
                }
            }
        }
    }
    path.len() <= i
}

fn is_family(f: &Family, owner: Owner, path: &[Text], key: &[Option<Value>]) -> bool
    ensures { result ≡ is_slot (slot_of (seen_family f.now)) (seen_owner owner) path.now key.now }
{
    if !is_same_owner(Owner::Global(f.global), owner) {
        return false;
    }
    if !is_same_path(f.steps.as_slice(), path) {
        return false;
    }
    is_same_key(f.key.as_slice(), key)
}

/// The number of a family.
pub fn number_of(
    families: &[Family],
    owner: Owner,
    path: &[Text],
    key: &[Option<Value>],
) -> Result<Option<u32>, Memory>
    ensures { IfOk result (λ n. n ≡ number_of (map seen_family families.now) (seen_owner owner) path.now key.now) }
{
    let mut number = 0u32;
    for f in families {
        if is_family(f, owner, path, key) {
            return Ok(Some(number));
        }
        number = added(number, 1)?;
    }
    Ok(None)
}

/// The cells of a family, in frames of `frame` variables.
fn own_read(alloc: Global, frame: u32, key: &[Option<Value>], family: u32) -> Result<Term, Memory>
    ensures { IfOk result (λ t. t ≡ own_read frame key.now family) }
{
    let axes = holes(key)?;
    let at = variables(alloc, frame, axes)?;
    Ok(Term::Read { family, at })
}

/// The term of a slot before anything is done.
pub fn first_term(
    alloc: Global,
    families: &[Family],
    frame: u32,
    slot: &Slot,
) -> Result<Term, Memory>
    ensures { IfOk result (λ t. t ≡ first_terms (map seen_family families.now) frame (seen_slot slot.now)) }
{
    match slot {
        Slot::Family { owner, path, key } => {
            match number_of(families, *owner, path.as_slice(), key.as_slice())? {
                None => Ok(undefined()),
                Some(n) => {
                    let t = own_read(alloc, frame, key.as_slice(), n)?;
                    Ok(t)
                }
            }
        }
        Slot::Leaving => Ok(truth(false)),
        Slot::Result => Ok(undefined()),
    }
}
