//! What designators stand for, and what has a term. Contracts see these by `specs/Seen`.

#![tactic(auto, using(crate::proofs::PlaceEquations::places))]

ghost use Rattle.std.specs.Prelude.{◌≡◌, ◌++◌, ◌∷◌, [], map, IfOk};
ghost use Rattle.std.specs.Str.{bytes_eq};
ghost use Rattle.murphi_typed.specs.Store.{same_owner};
ghost use Rattle.murphi_typed.specs.Steps.{same_list};
ghost use Rattle.rule_inline.specs.Tables.{holes, axes, marks_of, axis_in, lifted_index, lifted_spot, Spot};
ghost use Rattle.rule_inline.specs.Machine.{same_part};
ghost use Rattle.rule_inline.specs.Parts.{index_over};
ghost use Rattle.rule_parts.specs.Seen.{seen_owner, seen_index, seen_spot, seen_slot};

use murphi_ast::text::{Memory as AstMemory, Text};
use murphi_typed::types::Simple;
use rule_terms::build::{added, lift};
use sqlite_items::Items;
use std::alloc::Global;
use term_core::term::Term;
use term_core::text::Memory;
use term_core::value::Value;

/// The variable of a place: a global, or a local or a formal of the body at this depth in calls.
#[derive(Debug, Clone, Copy, PartialEq, Eq)]
pub enum Owner {
    Global(u32),
    Local { depth: u32, number: u32 },
    Formal { depth: u32, number: u32 },
}

/// An index of a designator: a node, with the bound variable that it is itself, if it is one; or one of the
/// values of another type.
#[derive(Drop)]
pub enum Index {
    Axis { mark: Option<u32>, term: Term },
    Among { over: Simple, term: Term },
}

/// What a designator stands for: the cells of a variable under these fields and indices.
#[derive(Drop)]
pub struct Spot {
    pub owner: Owner,
    pub path: Items<Text>,
    pub at: Items<Index>,
}

/// What has a term: a family of cells, with the value of each index that is no node; that a `return` was
/// met in the body that is running; and the result of this body.
#[derive(Drop)]
pub enum Slot {
    Family {
        owner: Owner,
        path: Items<Text>,
        key: Items<Option<Value>>,
    },
    Leaving,
    Result,
}

pub fn is_same_owner(a: Owner, b: Owner) -> bool
    ensures { result ≡ same_owner (seen_owner a) (seen_owner b) }
{
    match a {
        Owner::Global(k) => match b {
            Owner::Global(m) => k == m,
            _ => false,
        },
        Owner::Local { depth, number } => match b {
            Owner::Local {
                depth: d,
                number: n,
            } => depth == d && number == n,
            _ => false,
        },
        Owner::Formal { depth, number } => match b {
            Owner::Formal {
                depth: d,
                number: n,
            } => depth == d && number == n,
            _ => false,
        },
    }
}

pub fn is_same_text(a: &Text, b: &Text) -> bool
    ensures { result ≡ bytes_eq a.now b.now }
{
    a.bytes() == b.bytes()
}

/// Another text of the same bytes.
pub fn copy_text(alloc: Global, t: &Text) -> Result<Text, Memory>
    ensures { IfOk result (λ out. out ≡ t.now) }
{
    match t.copy(alloc) {
        Ok(out) => Ok(out),
        Err(AstMemory) => Err(Memory),
    }
}

/// Texts, and then other texts.
pub fn add_texts(alloc: Global, front: Items<Text>, all: &[Text]) -> Result<Items<Text>, Memory>
    ensures { IfOk result (λ out. out ≡ front ++ all.now) }
{
    let mut out = front;
    for one in all {
        let copied = copy_text(alloc, one)?;
        out.push(copied)?;
    }
    Ok(out)
}

pub fn copy_texts(alloc: Global, all: &[Text]) -> Result<Items<Text>, Memory>
    ensures { IfOk result (λ out. out ≡ all.now) }
{
    let out = add_texts(alloc, Items::new(alloc), all)?;
    Ok(out)
}

/// Parts of a key, and then other parts.
pub fn add_parts(
    front: Items<Option<Value>>,
    all: &[Option<Value>],
) -> Result<Items<Option<Value>>, Memory>
    ensures { IfOk result (λ out. out ≡ front ++ all.now) }
{
    let mut out = front;
    for one in all {
        out.push(*one)?;
    }
    Ok(out)
}

/// How many indices are nodes.
pub fn holes(key: &[Option<Value>]) -> Result<u32, Memory>
    ensures { IfOk result (λ n. n ≡ holes key.now) }
{
    let mut count = 0u32;
    for part in key {
        match part {
            None => count = added(count, 1)?,
            Some(_) => {}
        }
    }
    Ok(count)
}

/// How many axes the term of a slot is over.
pub fn axes(slot: &Slot) -> Result<u32, Memory>
    ensures { IfOk result (λ n. n ≡ axes (seen_slot slot.now)) }
{
    match slot {
        Slot::Family { key, .. } => {
            let n = holes(key.as_slice())?;
            Ok(n)
        }
        Slot::Leaving => Ok(0),
        Slot::Result => Ok(0),
    }
}

/// An index of this type, with the bound variable that it is itself.
pub fn index_over(over: Simple, mark: Option<u32>, term: Term) -> Index
    ensures { seen_index result ≡ index_over over mark term }
{
    match over {
        Simple::Node => Index::Axis { mark, term },
        Simple::Truth | Simple::Range { .. } | Simple::Listed { .. } | Simple::Scalarset { .. } =>
            Index::Among { over, term },
    }
}

pub fn copy_index(alloc: Global, i: &Index) -> Result<Index, Memory>
    ensures { IfOk result (λ out. out ≡ i.now) }
{
    match i {
        Index::Axis { mark, term } => {
            let term = term.copy(alloc)?;
            Ok(Index::Axis { mark: *mark, term })
        }
        Index::Among { over, term } => {
            let term = term.copy(alloc)?;
            Ok(Index::Among { over: *over, term })
        }
    }
}

pub fn copy_indices(alloc: Global, all: &[Index]) -> Result<Items<Index>, Memory>
    ensures { IfOk result (λ out. out ≡ all.now) }
{
    let mut out = Items::new(alloc);
    for one in all {
        let copied = copy_index(alloc, one)?;
        out.push(copied)?;
    }
    Ok(out)
}

/// A place equal to this one.
pub fn copy_spot(alloc: Global, spot: &Spot) -> Result<Spot, Memory>
    ensures { IfOk result (λ out. out ≡ spot.now) }
{
    let path = copy_texts(alloc, spot.path.as_slice())?;
    let at = copy_indices(alloc, spot.at.as_slice())?;
    Ok(Spot {
        owner: spot.owner,
        path,
        at,
    })
}

fn lift_index(alloc: Global, i: &Index, frame: u32) -> Result<Index, Memory>
    ensures { IfOk result (λ out. seen_index out ≡ lifted_index frame (seen_index i.now)) }
{
    match i {
        Index::Axis { mark, term } => {
            let term = lift(alloc, term, frame, 1)?;
            Ok(Index::Axis { mark: *mark, term })
        }
        Index::Among { over, term } => {
            let term = lift(alloc, term, frame, 1)?;
            Ok(Index::Among { over: *over, term })
        }
    }
}

fn lift_indices(alloc: Global, all: &[Index], frame: u32) -> Result<Items<Index>, Memory>
    ensures { IfOk result (λ out. map seen_index out ≡ map (lifted_index frame) (map seen_index all.now)) }
{
    let mut out = Items::new(alloc);
    for one in all {
        let lifted = lift_index(alloc, one, frame)?;
        out.push(lifted)?;
    }
    Ok(out)
}

/// The same place under one more variable.
pub fn lift_spot(alloc: Global, spot: &Spot, frame: u32) -> Result<Spot, Memory>
    ensures { IfOk result (λ out. seen_spot out ≡ lifted_spot frame (seen_spot spot.now)) }
{
    let path = copy_texts(alloc, spot.path.as_slice())?;
    let at = lift_indices(alloc, spot.at.as_slice(), frame)?;
    Ok(Spot {
        owner: spot.owner,
        path,
        at,
    })
}

/// For each node index, the bound variable that it is itself, if it is one.
pub fn marks_of(alloc: Global, at: &[Index]) -> Result<Items<Option<u32>>, Memory>
    ensures { IfOk result (λ out. out ≡ marks_of (map seen_index at.now)) }
{
    let mut out = Items::new(alloc);
    for index in at {
        match index {
            Index::Axis { mark, .. } => out.push(*mark)?,
            Index::Among { .. } => {}
        }
    }
    Ok(out)
}

/// The first index that is the variable itself.
pub fn axis_in(variable: u32, marks: &[Option<u32>]) -> Result<Option<u32>, Memory>
    ensures { IfOk result (λ k. k ≡ axis_in variable marks.now) }
{
    let mut passed = 0u32;
    for mark in marks {
        match mark {
            Some(k) => {
                if *k == variable {
                    return Ok(Some(passed));
                }
            }
            None => {}
        }
        passed = added(passed, 1)?;
    }
    Ok(None)
}
