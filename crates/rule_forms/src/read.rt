//! What is read through places, and what calls give to formals.

#![tactic(auto, using(crate::proofs::ReadEquations::reading))]

ghost use Rattle.std.specs.Prelude.{◌≡◌, ◌++◌, ◌∷◌, [], true, false, None, IfOk};
ghost use Rattle.rule_inline.specs.Demands.{demand};
ghost use Rattle.rule_inline.specs.Tables.{Leaving, shown_at, read_of, only_term};
ghost use Rattle.rule_inline.specs.Parts.{Filled, Standing, is_defined, read, asked_undefined, result_after, no_arguments};
ghost use Rattle.rule_parts.specs.Seen.{seen_spot};
ghost use Rattle.rule_terms.specs.Gathered.{seen_demands};
ghost use Rattle.rule_parts.specs.Layers.{seen_given, seen_shown};
ghost use Rattle.rule_forms.specs.Seen.{seen_site, seen_valued, seen_placed, seen_argued, seen_done, terms_in, families_in};
ghost use Rattle.rule_forms.specs.Words.{argument_on, filled_in};

use crate::site::{Argued, Done, Placed, Site, Valued};
use murphi_ast::text::Text;
use rule_parts::layer::{Given, Layer, Shown};
use rule_parts::now::{now, shown_at};
use rule_parts::place::{Slot, Spot};
use rule_terms::build::{is_defined, same, undefined};
use rule_terms::demand::{Demands, and_one, both};
use sqlite_items::Items;
use std::alloc::Global;
use std::rc::Rc;
use term_core::term::Term;
use term_core::text::Memory;
use term_core::value::Value;

/// The value of a place of simple type.
pub fn read_of(alloc: Global, site: &Site<'_>, terms: &Layer, spot: &Spot) -> Result<Term, Memory>
    ensures { IfOk result (λ t. t ≡ read_of site.now.frame (terms_in site.now terms.now) (seen_spot spot.now)) }
{
    let path: Items<Text> = Items::new(alloc);
    let key: Items<Option<Value>> = Items::new(alloc);
    let t = shown_at(
        alloc,
        site.families,
        terms,
        site.frame,
        spot,
        path.as_slice(),
        key.as_slice(),
    )?;
    Ok(t)
}

/// That a term is defined.
fn defined(alloc: Global, term: &Term) -> Result<Term, Memory>
    ensures { IfOk result (λ t. t ≡ is_defined term.now) }
{
    let copied = term.copy(alloc)?;
    let t = is_defined(alloc, copied)?;
    Ok(t)
}

/// What a place demands of which the term is read.
fn read_demands(alloc: Global, p: Placed, term: &Term) -> Result<Demands, Memory>
    ensures { IfOk result (λ d. seen_demands d ≡ (seen_placed p).demands ++ demand (is_defined term.now) ∷ []) }
{
    let must = defined(alloc, term)?;
    let d = and_one(alloc, p.demands, must)?;
    Ok(d)
}

/// The cell of a designator, which has to be defined.
pub fn read(alloc: Global, site: &Site<'_>, terms: &Layer, p: Placed) -> Result<Valued, Memory>
    ensures { IfOk result (λ v. seen_valued v ≡ read (seen_site site.now) (terms_in site.now terms.now) (seen_placed p)) }
{
    let term = read_of(alloc, site, terms, &p.spot)?;
    let demands = read_demands(alloc, p, &term)?;
    Ok(Valued { term, demands })
}

/// Whether the cell of a designator is undefined.
pub fn asked_undefined(
    alloc: Global,
    site: &Site<'_>,
    terms: &Layer,
    p: Placed,
) -> Result<Valued, Memory>
    ensures { IfOk result (λ v. seen_valued v ≡ asked_undefined (seen_site site.now) (terms_in site.now terms.now) (seen_placed p)) }
{
    let term = read_of(alloc, site, terms, &p.spot)?;
    let term = same(alloc, term, undefined())?;
    Ok(Valued {
        term,
        demands: p.demands,
    })
}

/// What a function's body demands, in which a `return` has to have been met.
fn ended(
    alloc: Global,
    site: &Site<'_>,
    change: &Layer,
    demands: Demands,
) -> Result<Demands, Memory>
    ensures { IfOk result (λ d. seen_demands d ≡ seen_demands demands ++ demand (terms_in site.now change.now Leaving) ∷ []) }
{
    let left = now(alloc, site.families, change, &Slot::Leaving)?;
    let d = and_one(alloc, demands, left)?;
    Ok(d)
}

/// A function's result after its body, in which a `return` has to have been met.
pub fn result_after(
    alloc: Global,
    site: &Site<'_>,
    args: Argued,
    body: Done,
) -> Result<Valued, Memory>
    ensures { IfOk result (λ v. seen_valued v ≡ result_after (seen_argued site.now args) (seen_done site.now body)) }
{
    let term = now(alloc, site.families, &body.change, &Slot::Result)?;
    let asked = body.demands;
    let rest = ended(alloc, site, &body.change, asked)?;
    let demands = both(alloc, args.demands, rest)?;
    Ok(Valued { term, demands })
}

pub fn no_arguments(alloc: Global, site: &Site<'_>) -> Argued
    ensures { seen_argued site.now result ≡ no_arguments }
{
    Argued {
        given: Items::new(alloc),
        demands: Demands::Nothing,
    }
}

fn with_argument(
    alloc: Global,
    site: &Site<'_>,
    front: Argued,
    g: Given,
    demands: Demands,
) -> Result<Argued, Memory>
    ensures { IfOk result (λ a. seen_argued site.now a ≡ argument_on (seen_argued site.now front) (seen_given g (families_in site.now)) (seen_demands demands)) }
{
    let mut given = front.given;
    given.push(g)?;
    let demands = both(alloc, front.demands, demands)?;
    Ok(Argued { given, demands })
}

fn filled(alloc: Global, mark: Option<u32>, plain: bool, shown: Shown) -> Result<Given, Memory>
    ensures { IfOk result (λ g. seen_given g ≡ filled_in mark plain (seen_shown shown)) }
{
    let shown = Rc::new(alloc, shown)?;
    Ok(Given::Filled { mark, plain, shown })
}

/// What is given where the cell of a place is copied.
fn copied_given(
    alloc: Global,
    site: &Site<'_>,
    terms: &Layer,
    mark: Option<u32>,
    spot: &Spot,
) -> Result<Given, Memory>
    ensures { IfOk result (λ g. seen_given g (families_in site.now) ≡ Filled mark true (only_term site.now.frame (read_of site.now.frame (terms_in site.now terms.now) (seen_spot spot.now)))) }
{
    let term = read_of(alloc, site, terms, spot)?;
    let frame = site.frame;
    let g = filled(alloc, mark, true, Shown::Only { frame, term })?;
    Ok(g)
}

/// What is given where the cells of a place are copied.
fn copied_cells(
    alloc: Global,
    site: &Site<'_>,
    terms: &Rc<Layer>,
    spot: Spot,
) -> Result<Given, Memory>
    ensures { IfOk result (λ g. seen_given g (families_in site.now) ≡ Filled None true (shown_at site.now.frame (terms_in site.now terms.now.value) (seen_spot spot))) }
{
    let from = terms.clone()?;
    let frame = site.frame;
    let g = filled(alloc, None, true, Shown::At { frame, from, spot })?;
    Ok(g)
}

/// To a formal by value of simple type: the cell of a plain designator.
pub fn copied(
    alloc: Global,
    site: &Site<'_>,
    terms: &Layer,
    front: Argued,
    mark: Option<u32>,
    p: Placed,
) -> Result<Argued, Memory>
    ensures { IfOk result (λ a. seen_argued site.now a ≡ argument_on (seen_argued site.now front) (Filled mark true (only_term site.now.frame (read_of site.now.frame (terms_in site.now terms.now) (seen_placed p).spot))) (seen_placed p).demands) }
{
    let g = copied_given(alloc, site, terms, mark, &p.spot)?;
    let a = with_argument(alloc, site, front, g, p.demands)?;
    Ok(a)
}

/// To a formal by value of compound type: the cells of a plain designator.
pub fn copied_all(
    alloc: Global,
    site: &Site<'_>,
    terms: &Rc<Layer>,
    front: Argued,
    p: Placed,
) -> Result<Argued, Memory>
    ensures { IfOk result (λ a. seen_argued site.now a ≡ argument_on (seen_argued site.now front) (Filled None true (shown_at site.now.frame (terms_in site.now terms.now.value) (seen_placed p).spot)) (seen_placed p).demands) }
{
    let g = copied_cells(alloc, site, terms, p.spot)?;
    let a = with_argument(alloc, site, front, g, p.demands)?;
    Ok(a)
}

/// To a formal by value of simple type: the value of any other expression.
pub fn valued(
    alloc: Global,
    site: &Site<'_>,
    front: Argued,
    mark: Option<u32>,
    e: Valued,
) -> Result<Argued, Memory>
    ensures { IfOk result (λ a. seen_argued site.now a ≡ argument_on (seen_argued site.now front) (Filled mark false (only_term site.now.frame (seen_valued e).term)) (seen_valued e).demands) }
{
    let shown = Shown::Only {
        frame: site.frame,
        term: e.term,
    };
    let g = filled(alloc, mark, false, shown)?;
    let a = with_argument(alloc, site, front, g, e.demands)?;
    Ok(a)
}

/// To a `var` formal: a place.
pub fn standing(alloc: Global, site: &Site<'_>, front: Argued, p: Placed) -> Result<Argued, Memory>
    ensures { IfOk result (λ a. seen_argued site.now a ≡ argument_on (seen_argued site.now front) (Standing (seen_placed p).spot) (seen_placed p).demands) }
{
    let a = with_argument(alloc, site, front, Given::Standing(p.spot), p.demands)?;
    Ok(a)
}
