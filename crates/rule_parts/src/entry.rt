//! The families of a place: for each the tests that the indices are its values, and the terms of the node
//! indices.

#![tactic(auto, using(crate::proofs::EntryEquations::entering))]

ghost use Rattle.std.specs.Prelude.{◌≡◌, ◌++◌, ◌∷◌, [], map, None, Some, IfOk};
ghost use Rattle.std.specs.List.{flat_map};
ghost use Rattle.term_core.specs.declared.term.Term.{And};
ghost use Rattle.rule_inline.specs.Tables.{entries, lifted_all};
ghost use Rattle.rule_inline.specs.Parts.{fixed_values};
ghost use Rattle.rule_parts.specs.Seen.{seen_index, seen_entry, seen_tested};
ghost use Rattle.rule_parts.specs.Steps.{axis_on, value_on, stepped, chained, chained_to};

use crate::place::{Index, add_parts};
use rule_terms::build::{choice, lift_all, same, undefined};
use rule_terms::values::values;
use sqlite_items::Items;
use std::alloc::Global;
use term_core::term::{Term, copy_terms};
use term_core::text::Memory;
use term_core::value::Value;

/// One of the families of a place.
#[derive(Drop)]
pub struct Entry {
    pub tests: Items<Term>,
    pub key: Items<Option<Value>>,
    pub nodes: Items<Term>,
}

/// A term under a test.
#[derive(Drop)]
pub struct Tested {
    pub test: Term,
    pub term: Term,
}

fn with_axis(alloc: Global, e: &Entry, index: &Term) -> Result<Entry, Memory>
    ensures { IfOk result (λ out. seen_entry out ≡ axis_on (seen_entry e.now) index.now) }
{
    let tests = copy_terms(alloc, e.tests.as_slice())?;
    let mut key = add_parts(Items::new(alloc), e.key.as_slice())?;
    key.push(None)?;
    let mut nodes = copy_terms(alloc, e.nodes.as_slice())?;
    let index = index.copy(alloc)?;
    nodes.push(index)?;
    Ok(Entry { tests, key, nodes })
}

fn with_value(alloc: Global, e: &Entry, index: &Term, v: Value) -> Result<Entry, Memory>
    ensures { IfOk result (λ out. seen_entry out ≡ value_on index.now (seen_entry e.now) v) }
{
    let mut tests = copy_terms(alloc, e.tests.as_slice())?;
    let index = index.copy(alloc)?;
    let test = same(alloc, index, Term::Known(v))?;
    tests.push(test)?;
    let mut key = add_parts(Items::new(alloc), e.key.as_slice())?;
    key.push(Some(v))?;
    let nodes = copy_terms(alloc, e.nodes.as_slice())?;
    Ok(Entry { tests, key, nodes })
}

fn with_values(
    alloc: Global,
    front: Items<Entry>,
    e: &Entry,
    index: &Term,
    vs: &[Value],
) -> Result<Items<Entry>, Memory>
    ensures { IfOk result (λ out. map seen_entry out ≡ map seen_entry front ++ map (value_on index.now (seen_entry e.now)) vs.now) }
{
    let mut out = front;
    for v in vs {
        let one = with_value(alloc, e, index, *v)?;
        out.push(one)?;
    }
    Ok(out)
}

fn over_axis(alloc: Global, es: &[Entry], index: &Term) -> Result<Items<Entry>, Memory>
    ensures { IfOk result (λ out. map seen_entry out ≡ map (λ e. axis_on e index.now) (map seen_entry es.now)) }
{
    let mut out = Items::new(alloc);
    for e in es {
        let one = with_axis(alloc, e, index)?;
        out.push(one)?;
    }
    Ok(out)
}

fn over_values(
    alloc: Global,
    es: &[Entry],
    index: &Term,
    vs: &[Value],
) -> Result<Items<Entry>, Memory>
    ensures { IfOk result (λ out. map seen_entry out ≡ flat_map (λ e. map (value_on index.now e) vs.now) (map seen_entry es.now)) }
{
    let mut out = Items::new(alloc);
    for e in es {
        out = with_values(alloc, out, e, index, vs)?;
    }
    Ok(out)
}

fn step(alloc: Global, es: &[Entry], index: &Index) -> Result<Items<Entry>, Memory>
    ensures { IfOk result (λ out. map seen_entry out ≡ stepped (map seen_entry es.now) (seen_index index.now)) }
{
    match index {
        Index::Axis { term, .. } => {
            let out = over_axis(alloc, es, term)?;
            Ok(out)
        }
        Index::Among { over, term } => {
            let vs = values(alloc, *over)?;
            let out = over_values(alloc, es, term, vs.as_slice())?;
            Ok(out)
        }
    }
}

fn none_yet(alloc: Global) -> Result<Items<Entry>, Memory>
    ensures { IfOk result (λ out. map seen_entry out ≡ entries []) }
{
    let mut out = Items::new(alloc);
    out.push(Entry {
        tests: Items::new(alloc),
        key: Items::new(alloc),
        nodes: Items::new(alloc),
    })?;
    Ok(out)
}

/// The families of a place, the first index slowest.
pub fn entries(alloc: Global, at: &[Index]) -> Result<Items<Entry>, Memory>
    ensures { IfOk result (λ out. map seen_entry out ≡ entries (map seen_index at.now)) }
{
    let mut out = none_yet(alloc)?;
    for index in at {
        out = step(alloc, out.as_slice(), index)?;
    }
    Ok(out)
}

/// The tests of a family, lifted over axes.
pub fn all_tests(alloc: Global, tests: &[Term], frame: u32, axes: u32) -> Result<Term, Memory>
    ensures { IfOk result (λ t. t ≡ And (lifted_all frame axes tests.now)) }
{
    let tests = lift_all(alloc, tests, frame, axes)?;
    Ok(Term::And(tests))
}

fn chain_to(alloc: Global, all: Items<Tested>, otherwise: Term) -> Result<Term, Memory>
    ensures { IfOk result (λ t. t ≡ chained_to (map seen_tested all) otherwise) }
{
    let mut rest = all;
    let mut out = otherwise;
    while let Some(one) = rest.pop() {
        out = choice(alloc, one.test, one.term, out)?;
    }
    Ok(out)
}

/// Whichever of the terms it is, the last without its test.
pub fn chain(alloc: Global, all: Items<Tested>) -> Result<Term, Memory>
    ensures { IfOk result (λ t. t ≡ chained (map seen_tested all)) }
{
    let mut rest = all;
    match rest.pop() {
        None => Ok(undefined()),
        Some(last) => {
            let out = chain_to(alloc, rest, last.term)?;
            Ok(out)
        }
    }
}
