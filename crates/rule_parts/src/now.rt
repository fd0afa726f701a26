//! The term of a slot, and the first designator that writes it, worked out from the layers.

#![tactic(auto, using(crate::proofs::NowEquations::nows))]

ghost use Rattle.std.specs.Prelude.{◌≡◌, ◌+◌, ◌++◌, map, slice_get, is_some, option_and_then, IfOk, if◌then◌else◌};
ghost use Rattle.std.specs.Option.{option_map_or};
ghost use Rattle.term_core.specs.declared.term.Term.{And, If};
ghost use Rattle.term_core.specs.Substitution.{lifted, placed};
ghost use Rattle.rule_inline.specs.Tables.{Leaving, axes, axis_in, variables, lifted_all, closed, shown_at};
ghost use Rattle.rule_inline.specs.Bodies.{given_terms, entered, back};
ghost use Rattle.rule_parts.specs.Seen.{family_slot, seen_spot, seen_slot, seen_entry, seen_tested, seen_family};
ghost use Rattle.rule_parts.specs.Layers.{seen_layer, seen_shown, term_in, givens, left_term, first_of, read_entry, new_or_old, own_variable};

use crate::entry::{Entry, Tested, all_tests, chain, entries};
use crate::family::{Family, first_term};
use crate::first::{first, own_axis};
use crate::fit::{Match, fit_of};
use crate::layer::{Given, Layer, Shown};
use crate::leaf::cleared;
use crate::place::{Owner, Slot, Spot, add_parts, add_texts, axes, holes};
use murphi_ast::text::Text;
use rule_terms::build::{added, choice, lift, lift_all, truth, undefined, variables};
use rule_terms::dropped::{Pair, dropped};
use sqlite_items::{Items, at};
use std::alloc::Global;
use term_core::substitute::place;
use term_core::term::Term;
use term_core::text::Memory;
use term_core::value::Value;

/// What is asked of the cells under a place: with how many variables bound, under which place, and the fields
/// and indices that follow it.
#[derive(Clone, Copy)]
struct Asked<'a> {
    frame: u32,
    spot: &'a Spot,
    path: &'a [Text],
    key: &'a [Option<Value>],
}

/// The new term where the place is the family at this cell, else the old one.
fn renewed(alloc: Global, frame: u32, m: Match, new: &Term, old: Term) -> Result<Term, Memory>
    ensures { IfOk result (λ t. t ≡ If (And (m.tests ++ m.sames)) (lifted frame m.count new.now) old) }
{
    let new = lift(alloc, new, frame, m.count)?;
    let mut tests = m.tests;
    tests.append(m.sames)?;
    let t = choice(alloc, Term::And(tests), new, old)?;
    Ok(t)
}

fn placed_read(
    alloc: Global,
    frame: u32,
    axes: u32,
    nodes: &[Term],
    t: &Term,
) -> Result<Term, Memory>
    ensures { IfOk result (λ r. r ≡ placed (frame + axes) (variables 0 frame ++ (lifted_all frame axes nodes.now ++ variables frame axes)) t.now) }
{
    let mut names = variables(alloc, 0, frame)?;
    let mut rest = lift_all(alloc, nodes, frame, axes)?;
    let own = variables(alloc, frame, axes)?;
    rest.append(own)?;
    names.append(rest)?;
    let to = added(frame, axes)?;
    let t = place(alloc, t, to, names.as_slice())?;
    Ok(t)
}

fn entry_slot(alloc: Global, asked: Asked<'_>, e: &Entry) -> Result<Slot, Memory>
    ensures { IfOk result (λ s. seen_slot s ≡ family_slot asked.entry.spot.now.owner (asked.entry.spot.now.path ++ asked.entry.path.now) (e.now.key ++ asked.entry.key.now)) }
{
    let path = add_texts(alloc, Items::new(alloc), asked.spot.path.as_slice())?;
    let path = add_texts(alloc, path, asked.path)?;
    let key = add_parts(Items::new(alloc), e.key.as_slice())?;
    let key = add_parts(key, asked.key)?;
    Ok(Slot::Family {
        owner: asked.spot.owner,
        path,
        key,
    })
}

/// The term after all turns of a loop.
fn closed(alloc: Global, frame: u32, count: u32, k: u32, body: &Term) -> Result<Term, Memory>
    ensures { IfOk result (λ t. t ≡ closed frame count k body.now) }
{
    let own = added(frame, k)?;
    let axis = added(own, 1)?;
    let pair = Pair {
        axis,
        variable: frame,
    };
    let body = dropped(alloc, body, pair)?;
    let mut names = variables(alloc, 0, frame)?;
    names.push(Term::Var(own))?;
    let rest = variables(alloc, frame, count)?;
    names.append(rest)?;
    let to = added(frame, count)?;
    let t = place(alloc, &body, to, names.as_slice())?;
    Ok(t)
}

/// One of two terms over the axes of a slot, by a test that is lifted over these.
fn chosen_by(
    alloc: Global,
    frame: u32,
    slot: &Slot,
    test: &Term,
    yes: Term,
    no: Term,
) -> Result<Term, Memory>
    ensures { IfOk result (λ t. t ≡ If (lifted frame (axes (seen_slot slot.now)) test.now) yes no) }
{
    let count = axes(slot)?;
    let test = lift(alloc, test, frame, count)?;
    let t = choice(alloc, test, yes, no)?;
    Ok(t)
}

/// Whose variable a family is of, for a body that is entered at a depth.
#[derive(Clone, Copy)]
enum Own {
    Other,
    Local,
    Formal(u32),
}

fn own_variable(depth: u32, owner: Owner) -> Own
    ensures { result ≡ own_variable depth owner }
{
    match owner {
        Owner::Global(_) => Own::Other,
        Owner::Local { depth: of, .. } => { if of == depth { Own::Local } else { Own::Other } }
        Owner::Formal { depth: of, number } => {
            if of == depth {
                Own::Formal(number)
            } else {
                Own::Other
            }
        }
    }
}

/// The term of a slot after the parts that the layer stands for.
#[cycle(now)]
pub fn now(alloc: Global, families: &[Family], layer: &Layer, slot: &Slot) -> Result<Term, Memory>
    ensures { IfOk result (λ t. t ≡ term_in families.now layer.now (seen_slot slot.now)) }
{
    match layer {
        Layer::First { frame } => {
            let t = first_term(alloc, families, *frame, slot)?;
            Ok(t)
        }
        Layer::Under { frame, before } => {
            let t = under(alloc, families, before, *frame, slot)?;
            Ok(t)
        }
        Layer::Nothing { before } => {
            let t = now(alloc, families, before, slot)?;
            Ok(t)
        }
        Layer::Then { second, .. } => {
            let t = now(alloc, families, second, slot)?;
            Ok(t)
        }
        Layer::Written {
            frame,
            before,
            spot,
            new,
        } => {
            let t = written(alloc, families, before, new, *frame, spot, slot)?;
            Ok(t)
        }
        Layer::Left { before, result } => {
            let t = left(alloc, families, before, result, slot)?;
            Ok(t)
        }
        Layer::Branch {
            frame,
            test,
            taken,
            other,
        } => {
            let t = branch(alloc, families, taken, other, *frame, test, slot)?;
            Ok(t)
        }
        Layer::Chosen { before, chain } => {
            let t = chosen(alloc, families, before, chain, slot)?;
            Ok(t)
        }
        Layer::Kept {
            frame,
            before,
            after,
        } => {
            let t = kept(alloc, families, before, after, *frame, slot)?;
            Ok(t)
        }
        Layer::Closed {
            frame,
            before,
            body,
        } => {
            let t = over_nodes(alloc, families, before, body, *frame, slot)?;
            Ok(t)
        }
        Layer::Entered {
            depth,
            given,
            before,
        } => {
            let t = entered(alloc, families, before, given.as_slice(), *depth, slot)?;
            Ok(t)
        }
        Layer::Back { before, body } => {
            let t = back(alloc, families, before, body, slot)?;
            Ok(t)
        }
    }
}

#[cycle(now)]
fn under(
    alloc: Global,
    families: &[Family],
    before: &Layer,
    frame: u32,
    slot: &Slot,
) -> Result<Term, Memory>
    ensures { IfOk result (λ t. t ≡ lifted frame 1 (term_in families.now before.now (seen_slot slot.now))) }
{
    let t = now(alloc, families, before, slot)?;
    let t = lift(alloc, &t, frame, 1)?;
    Ok(t)
}

#[cycle(now)]
fn written(
    alloc: Global,
    families: &[Family],
    before: &Layer,
    new: &Shown,
    frame: u32,
    spot: &Spot,
    slot: &Slot,
) -> Result<Term, Memory>
    ensures { IfOk result (λ t. t ≡ new_or_old frame (seen_spot spot.now) (seen_shown new.now (map seen_family families.now)) (seen_slot slot.now) (term_in families.now before.now (seen_slot slot.now))) }
{
    let old = now(alloc, families, before, slot)?;
    let t = written_term(alloc, families, new, frame, spot, slot, old)?;
    Ok(t)
}

#[cycle(now)]
fn left(
    alloc: Global,
    families: &[Family],
    before: &Layer,
    of: &Option<Term>,
    slot: &Slot,
) -> Result<Term, Memory>
    ensures { IfOk result (λ t. t ≡ left_term of.now (seen_slot slot.now) (term_in families.now before.now (seen_slot slot.now))) }
{
    match slot {
        Slot::Leaving => Ok(truth(true)),
        Slot::Result => match of {
            Some(t) => {
                let t = t.copy(alloc)?;
                Ok(t)
            }
            None => {
                let t = now(alloc, families, before, slot)?;
                Ok(t)
            }
        },
        Slot::Family { .. } => {
            let t = now(alloc, families, before, slot)?;
            Ok(t)
        }
    }
}

#[cycle(now)]
fn branch(
    alloc: Global,
    families: &[Family],
    taken: &Layer,
    other: &Layer,
    frame: u32,
    test: &Term,
    slot: &Slot,
) -> Result<Term, Memory>
    ensures { IfOk result (λ t. t ≡ If (lifted frame (axes (seen_slot slot.now)) test.now) (term_in families.now taken.now (seen_slot slot.now)) (term_in families.now other.now (seen_slot slot.now))) }
{
    let yes = now(alloc, families, taken, slot)?;
    let no = now(alloc, families, other, slot)?;
    let t = chosen_by(alloc, frame, slot, test, yes, no)?;
    Ok(t)
}

#[cycle(now)]
fn chosen(
    alloc: Global,
    families: &[Family],
    before: &Layer,
    chain: &Layer,
    slot: &Slot,
) -> Result<Term, Memory>
    ensures { IfOk result (λ t. t ≡ (if is_some (first_of chain.now (seen_slot slot.now)) then (term_in families.now chain.now (seen_slot slot.now)) else (term_in families.now before.now (seen_slot slot.now)))) }
{
    match first(alloc, chain, slot)? {
        Some(_) => {
            let t = now(alloc, families, chain, slot)?;
            Ok(t)
        }
        None => {
            let t = now(alloc, families, before, slot)?;
            Ok(t)
        }
    }
}

#[cycle(now)]
fn kept(
    alloc: Global,
    families: &[Family],
    before: &Layer,
    after: &Layer,
    frame: u32,
    slot: &Slot,
) -> Result<Term, Memory>
    ensures { IfOk result (λ t. t ≡ (if is_some (first_of after.now (seen_slot slot.now)) then If (lifted frame (axes (seen_slot slot.now)) (term_in families.now before.now Leaving)) (term_in families.now before.now (seen_slot slot.now)) (term_in families.now after.now (seen_slot slot.now)) else (term_in families.now after.now (seen_slot slot.now)))) }
{
    let new = now(alloc, families, after, slot)?;
    match first(alloc, after, slot)? {
        Some(_) => {
            let left = now(alloc, families, before, &Slot::Leaving)?;
            let old = now(alloc, families, before, slot)?;
            let t = chosen_by(alloc, frame, slot, &left, old, new)?;
            Ok(t)
        }
        None => Ok(new),
    }
}

#[cycle(now)]
fn over_nodes(
    alloc: Global,
    families: &[Family],
    before: &Layer,
    body: &Layer,
    frame: u32,
    slot: &Slot,
) -> Result<Term, Memory>
    ensures { IfOk result (λ t. t ≡ option_map_or (λ k. closed frame (axes (seen_slot slot.now)) k (term_in families.now body.now (seen_slot slot.now))) (option_and_then (axis_in frame) (first_of body.now (seen_slot slot.now))) (term_in families.now before.now (seen_slot slot.now))) }
{
    match own_axis(alloc, body, frame, slot)? {
        Some(k) => {
            let t = now(alloc, families, body, slot)?;
            let count = axes(slot)?;
            let t = closed(alloc, frame, count, k, &t)?;
            Ok(t)
        }
        None => {
            let t = now(alloc, families, before, slot)?;
            Ok(t)
        }
    }
}

#[cycle(now)]
fn entered(
    alloc: Global,
    families: &[Family],
    before: &Layer,
    given: &[Given],
    depth: u32,
    slot: &Slot,
) -> Result<Term, Memory>
    ensures { IfOk result (λ t. t ≡ entered depth (givens (map seen_family families.now) given.now) (seen_layer before.now (map seen_family families.now)).now (seen_slot slot.now)) }
{
    match slot {
        Slot::Leaving => Ok(truth(false)),
        Slot::Result => Ok(undefined()),
        Slot::Family { owner, path, key } => match own_variable(depth, *owner) {
            Own::Other => {
                let t = now(alloc, families, before, slot)?;
                Ok(t)
            }
            Own::Local => Ok(undefined()),
            Own::Formal(k) => {
                let t = given_term(alloc, families, given, k, path.as_slice(), key.as_slice())?;
                Ok(t)
            }
        },
    }
}

#[cycle(now)]
fn back(
    alloc: Global,
    families: &[Family],
    before: &Layer,
    body: &Layer,
    slot: &Slot,
) -> Result<Term, Memory>
    ensures { IfOk result (λ t. t ≡ back (seen_layer before.now (map seen_family families.now)).now (seen_layer body.now (map seen_family families.now)) (seen_slot slot.now)) }
{
    match slot {
        Slot::Family { .. } => {
            let t = now(alloc, families, body, slot)?;
            Ok(t)
        }
        Slot::Leaving | Slot::Result => {
            let t = now(alloc, families, before, slot)?;
            Ok(t)
        }
    }
}

/// The term of a slot once the cells under a place have new values.
#[cycle(now)]
fn written_term(
    alloc: Global,
    families: &[Family],
    new: &Shown,
    frame: u32,
    spot: &Spot,
    slot: &Slot,
    old: Term,
) -> Result<Term, Memory>
    ensures { IfOk result (λ t. t ≡ new_or_old frame (seen_spot spot.now) (seen_shown new.now (map seen_family families.now)) (seen_slot slot.now) old) }
{
    match slot {
        Slot::Family { owner, path, key } => {
            match fit_of(alloc, spot, frame, *owner, path.as_slice(), key.as_slice())? {
                None => Ok(old),
                Some(f) => {
                    let t = shown(
                        alloc,
                        families,
                        new,
                        f.further.as_slice(),
                        f.matches.rest.as_slice(),
                    )?;
                    let t = renewed(alloc, frame, f.matches, &t, old)?;
                    Ok(t)
                }
            }
        }
        Slot::Leaving => Ok(old),
        Slot::Result => Ok(old),
    }
}

/// The term of a cell under a place.
#[cycle(now)]
pub fn shown(
    alloc: Global,
    families: &[Family],
    new: &Shown,
    path: &[Text],
    key: &[Option<Value>],
) -> Result<Term, Memory>
    ensures { IfOk result (λ t. t ≡ seen_shown new.now (map seen_family families.now) path.now key.now) }
{
    match new {
        Shown::Only { frame, term } => {
            let axes = holes(key)?;
            let t = lift(alloc, term, *frame, axes)?;
            Ok(t)
        }
        Shown::At { frame, from, spot } => {
            let t = shown_at(alloc, families, from, *frame, spot, path, key)?;
            Ok(t)
        }
        Shown::Cleared(of) => Ok(cleared(of, path)),
        Shown::Undefined => Ok(undefined()),
    }
}

/// The term of a cell under a place, from the terms of the families that the place may be.
#[cycle(now)]
pub fn shown_at(
    alloc: Global,
    families: &[Family],
    from: &Layer,
    frame: u32,
    spot: &Spot,
    path: &[Text],
    key: &[Option<Value>],
) -> Result<Term, Memory>
    ensures { IfOk result (λ t. t ≡ shown_at frame (seen_layer from.now (map seen_family families.now)).now (seen_spot spot.now) path.now key.now) }
{
    let es = entries(alloc, spot.at.as_slice())?;
    let asked = Asked {
        frame,
        spot,
        path,
        key,
    };
    let all = reads(alloc, families, from, asked, es.as_slice())?;
    let t = chain(alloc, all)?;
    Ok(t)
}

/// What is read through each of the families.
#[cycle(now)]
fn reads(
    alloc: Global,
    families: &[Family],
    from: &Layer,
    asked: Asked<'_>,
    es: &[Entry],
) -> Result<Items<Tested>, Memory>
    ensures { IfOk result (λ out. map seen_tested out ≡ map (read_entry asked.entry.frame (seen_layer from.now (map seen_family families.now)).now (seen_spot asked.entry.spot.now) asked.entry.path.now asked.entry.key.now) (map seen_entry es.now)) }
{
    let mut out = Items::new(alloc);
    for e in es {
        let one = read_entry(alloc, families, from, asked, e)?;
        out.push(one)?;
    }
    Ok(out)
}

#[cycle(now)]
fn read_entry(
    alloc: Global,
    families: &[Family],
    from: &Layer,
    asked: Asked<'_>,
    e: &Entry,
) -> Result<Tested, Memory>
    ensures { IfOk result (λ x. seen_tested x ≡ read_entry asked.entry.frame (seen_layer from.now (map seen_family families.now)).now (seen_spot asked.entry.spot.now) asked.entry.path.now asked.entry.key.now (seen_entry e.now)) }
{
    let slot = entry_slot(alloc, asked, e)?;
    let t = now(alloc, families, from, &slot)?;
    let axes = holes(asked.key)?;
    let term = placed_read(alloc, asked.frame, axes, e.nodes.as_slice(), &t)?;
    let test = all_tests(alloc, e.tests.as_slice(), asked.frame, axes)?;
    Ok(Tested { test, term })
}

/// The term of a cell of a formal at the entry of a body.
#[cycle(now)]
fn given_term(
    alloc: Global,
    families: &[Family],
    given: &[Given],
    k: u32,
    path: &[Text],
    key: &[Option<Value>],
) -> Result<Term, Memory>
    ensures { IfOk result (λ t. t ≡ given_terms (slice_get (givens (map seen_family families.now) given.now) k) path.now key.now) }
{
    match at(given, k as usize) {
        Some(Given::Filled { shown: new, .. }) => {
            let t = shown(alloc, families, new, path, key)?;
            Ok(t)
        }
        Some(Given::Standing(_)) => Ok(undefined()),
        None => Ok(undefined()),
    }
}
