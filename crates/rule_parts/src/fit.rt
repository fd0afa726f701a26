//! How a family lies under a place.

#![tactic(auto, using(crate::proofs::FitEquations::fits))]

ghost use Rattle.std.specs.Prelude.{◌≡◌, ◌+◌, ◌<◌, ◌∷◌, ◌++◌, [], length, map, drop, slice_get, option_map, None, Some, IfOk, if◌then◌else◌};
ghost use Rattle.std.specs.Str.{bytes_eq};
ghost use Rattle.murphi_typed.specs.Store.{beyond};
ghost use Rattle.term_core.specs.declared.term.Term.{Known, Same, Var};
ghost use Rattle.term_core.specs.Substitution.{lifted};
ghost use Rattle.rule_inline.specs.Tables.{matched};
ghost use Rattle.rule_parts.specs.Seen.{seen_index, seen_spot, seen_owner, seen_match, seen_fit};
ghost use Rattle.rule_parts.specs.Steps.{axis_matched, value_matched, step_match, matched_to, matched_on, fitted, fit_with, no_match};

use crate::place::{Index, Owner, Spot, add_parts, copy_texts, holes, is_same_owner, is_same_text};
use murphi_ast::text::Text;
use rule_terms::build::{added, lift, same};
use sqlite_items::Items;
use std::alloc::Global;
use term_core::term::Term;
use term_core::text::Memory;
use term_core::value::Value;

/// The tests that a place is this family, the tests that the family's axes are the node indices of the
/// place, how many these are, and the indices that follow.
#[derive(Drop)]
pub struct Match {
    pub tests: Items<Term>,
    pub sames: Items<Term>,
    pub count: u32,
    pub rest: Items<Option<Value>>,
}

/// A match, with the fields that follow the place.
#[derive(Drop)]
pub struct Fit {
    pub further: Items<Text>,
    pub matches: Match,
}

/// Whether a list begins with another.
fn is_front(front: &[Text], all: &[Text]) -> bool
    ensures { beyond bytes_eq front.now all.now ≡ (if result then Some (drop (length front.now) all.now) else None) }
{
    for at in 0..front.len() {
        if at < all.len() {
            if !is_same_text(&front[at], &all[at]) {
                return false;
            }
        } else {
            return false;
        }
    }
    true
}

/// What follows the front of a list, where it begins with it.
fn beyond(alloc: Global, front: &[Text], all: &[Text]) -> Result<Option<Items<Text>>, Memory>
    ensures { IfOk result (λ out. out ≡ beyond bytes_eq front.now all.now) }
{
    if !is_front(front, all) {
        return Ok(None);
    }
    if front.len() > all.len() {
        return Ok(None);
    }
    let out = copy_texts(alloc, &all[front.len()..])?;
    Ok(Some(out))
}

fn lifted_test(alloc: Global, index: &Term, frame: u32, axes: u32, v: Value) -> Result<Term, Memory>
    ensures { IfOk result (λ t. t ≡ Same (lifted frame axes index.now) (Known v)) }
{
    let index = lift(alloc, index, frame, axes)?;
    let t = same(alloc, index, Term::Known(v))?;
    Ok(t)
}

/// A match with one axis more.
fn with_axis(alloc: Global, m: Match, index: &Term, frame: u32, axes: u32) -> Result<Match, Memory>
    ensures { IfOk result (λ out. seen_match out ≡ axis_matched (lifted frame axes) frame (seen_match m) index.now) }
{
    let index = lift(alloc, index, frame, axes)?;
    let axis = added(frame, m.count)?;
    let test = same(alloc, Term::Var(axis), index)?;
    let count = added(m.count, 1)?;
    let mut sames = m.sames;
    sames.push(test)?;
    Ok(Match {
        tests: m.tests,
        sames,
        count,
        rest: m.rest,
    })
}

/// A match with one value more.
fn with_value(alloc: Global, m: Match, test: Term) -> Result<Match, Memory>
    ensures tests { IfOk result (λ out. out.tests ≡ m.tests ++ test ∷ []) }
    ensures sames { IfOk result (λ out. out.sames ≡ m.sames) }
    ensures count { IfOk result (λ out. out.count ≡ m.count) }
    ensures rest { IfOk result (λ out. out.rest ≡ m.rest) }
{
    let mut tests = m.tests;
    tests.push(test)?;
    Ok(Match {
        tests,
        sames: m.sames,
        count: m.count,
        rest: m.rest,
    })
}

/// A match with one index more, where the family has this there.
fn step(
    alloc: Global,
    m: Match,
    index: &Index,
    part: Option<Value>,
    frame: u32,
    axes: u32,
) -> Result<Option<Match>, Memory>
    ensures { IfOk result (λ out. option_map seen_match out ≡ step_match (lifted frame axes) frame (seen_match m) (seen_index index.now) part) }
{
    match index {
        Index::Axis { term, .. } => match part {
            None => {
                let out = with_axis(alloc, m, term, frame, axes)?;
                Ok(Some(out))
            }
            Some(_) => Ok(None),
        },
        Index::Among { term, .. } => match part {
            None => Ok(None),
            Some(v) => {
                let test = lifted_test(alloc, term, frame, axes, v)?;
                let out = with_value(alloc, m, test)?;
                Ok(Some(out))
            }
        },
    }
}

fn no_match(alloc: Global) -> Match
    ensures { seen_match result ≡ no_match }
{
    Match {
        tests: Items::new(alloc),
        sames: Items::new(alloc),
        count: 0,
        rest: Items::new(alloc),
    }
}

fn with_rest(m: Match, rest: Items<Option<Value>>) -> Match
    ensures tests { result.tests ≡ m.tests }
    ensures sames { result.sames ≡ m.sames }
    ensures count { result.count ≡ m.count }
    ensures rest { result.rest ≡ rest }
{
    Match {
        tests: m.tests,
        sames: m.sames,
        count: m.count,
        rest,
    }
}

fn part_at(key: &[Option<Value>], i: usize) -> Option<Option<Value>>
    ensures { result ≡ slice_get key.now i }
{
    if i < key.len() { Some(key[i]) } else { None }
}

fn after(key: &[Option<Value>], from: usize) -> &[Option<Value>]
    ensures { result.now ≡ drop from key.now }
{
    if from < key.len() {
        &key[from..]
    } else {
        &key[key.len()..]
    }
}

/// A match with the next index.
fn one_matched(
    alloc: Global,
    m: Match,
    all: &[Index],
    key: &[Option<Value>],
    i: usize,
    frame: u32,
    axes: u32,
) -> Result<Option<Match>, Memory>
    requires { i < length all.now }
    ensures { IfOk result (λ out. matched_on (lifted frame axes) frame (option_map seen_match out) (map seen_index (drop (i + 1) all.now)) (drop (i + 1) key.now) ≡ matched_to (lifted frame axes) frame (seen_match m) (map seen_index (drop i all.now)) (drop i key.now)) }
{
    match part_at(key, i) {
        None => Ok(None),
        Some(part) => {
            let out = step(alloc, m, &all[i], part, frame, axes)?;
            Ok(out)
        }
    }
}

/// How the indices of a family with so many axes match those of a place.
fn matching(
    alloc: Global,
    all: &[Index],
    key: &[Option<Value>],
    frame: u32,
    axes: u32,
) -> Result<Option<Match>, Memory>
    ensures { IfOk result (λ out. option_map seen_match out ≡ matched (lifted frame axes) frame (map seen_index all.now) key.now) }
{
    let mut m = no_match(alloc);
    for i in 0..all.len() {
        match one_matched(alloc, m, all, key, i, frame, axes)? {
            None => return Ok(None),
            Some(next) => m = next,
        }
    }
    let rest = add_parts(Items::new(alloc), after(key, all.len()))?;
    Ok(Some(with_rest(m, rest)))
}

fn with_further(further: Items<Text>, m: Option<Match>) -> Option<Fit>
    ensures { option_map seen_fit result ≡ option_map (fit_with further) (option_map seen_match m) }
{
    match m {
        None => None,
        Some(matches) => Some(Fit { further, matches }),
    }
}

/// How a family lies under a place, if it does.
pub fn fit_of(
    alloc: Global,
    spot: &Spot,
    frame: u32,
    owner: Owner,
    path: &[Text],
    key: &[Option<Value>],
) -> Result<Option<Fit>, Memory>
    ensures { IfOk result (λ out. option_map seen_fit out ≡ fitted frame (seen_spot spot.now) (seen_owner owner) path.now key.now) }
{
    if !is_same_owner(owner, spot.owner) {
        return Ok(None);
    }
    match beyond(alloc, spot.path.as_slice(), path)? {
        None => Ok(None),
        Some(further) => {
            let axes = holes(key)?;
            let m = matching(alloc, spot.at.as_slice(), key, frame, axes)?;
            Ok(with_further(further, m))
        }
    }
}
