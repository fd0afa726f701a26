//! What statements do, from what their parts come to.

#![tactic(auto, using(crate::proofs::StatementEquations::statements))]

ghost use Rattle.std.specs.Prelude.{◌≡◌, ◌++◌, true, false, None, Some, IfOk};
ghost use Rattle.rule_inline.specs.Demands.{Demand, demand, truth_term, under_test, binding};
ghost use Rattle.rule_inline.specs.Tables.{Leaving, unchanged, only_term, shown_at, read_of, written, under_variable};
ghost use Rattle.rule_inline.specs.Parts.{stored_fits};
ghost use Rattle.rule_inline.specs.Bodies.{nothing, before, reached, stored, copied, copied_all, set, cleared, all_undefined, leave, returned, asserted, failed, taken, for_nodes, came_back, result_stored};
ghost use Rattle.rule_terms.specs.Gathered.{seen_demands};
ghost use Rattle.rule_parts.specs.Seen.{seen_spot};
ghost use Rattle.rule_parts.specs.Layers.{seen_layer, seen_shown, left_change, kept_change};
ghost use Rattle.rule_forms.specs.Seen.{seen_site, seen_valued, seen_placed, seen_argued, seen_done, terms_in, families_in};

use crate::read::read_of;
use crate::site::{Argued, Done, Placed, Site, Valued};
use murphi_typed::types::{AnyType, Simple};
use rule_parts::layer::{Layer, Shown};
use rule_parts::leaf::copy_type;
use rule_parts::now::now;
use rule_parts::place::{Slot, Spot};
use rule_terms::build::{is_false, truth};
use rule_terms::condition::stored_fits;
use rule_terms::demand::{Demands, and_one, binding, both, unless};
use std::alloc::Global;
use std::rc::Rc;
use term_core::term::Term;
use term_core::text::Memory;

pub fn shared(alloc: Global, layer: Layer) -> Result<Rc<Layer>, Memory>
    ensures { IfOk result (λ r. r.value ≡ layer) }
{
    let r = Rc::new(alloc, layer)?;
    Ok(r)
}

/// A layer that changes nothing.
fn same_layer(alloc: Global, site: &Site<'_>, terms: &Rc<Layer>) -> Result<Rc<Layer>, Memory>
    ensures { IfOk result (λ r. seen_layer r.value (families_in site.now) ≡ unchanged (terms_in site.now terms.now.value)) }
{
    let before = terms.clone()?;
    let r = shared(alloc, Layer::Nothing { before })?;
    Ok(r)
}

/// What does nothing.
pub fn nothing(alloc: Global, site: &Site<'_>, terms: &Rc<Layer>) -> Result<Done, Memory>
    ensures { IfOk result (λ d. seen_done site.now d ≡ nothing (terms_in site.now terms.now.value)) }
{
    let change = same_layer(alloc, site, terms)?;
    Ok(Done {
        change,
        demands: Demands::Nothing,
    })
}

/// One part after another.
pub fn before(alloc: Global, site: &Site<'_>, a: Done, b: Done) -> Result<Done, Memory>
    ensures { IfOk result (λ d. seen_done site.now d ≡ before (seen_done site.now a) (seen_done site.now b)) }
{
    let layer = Layer::Then {
        first: a.change,
        second: b.change,
    };
    let change = shared(alloc, layer)?;
    let demands = both(alloc, a.demands, b.demands)?;
    Ok(Done { change, demands })
}

fn left_of(alloc: Global, site: &Site<'_>, terms: &Layer) -> Result<Term, Memory>
    ensures { IfOk result (λ t. t ≡ terms_in site.now terms.now Leaving) }
{
    let t = now(alloc, site.families, terms, &Slot::Leaving)?;
    Ok(t)
}

/// What a part of a statement demands, where no `return` was met before.
pub fn reached(
    alloc: Global,
    site: &Site<'_>,
    terms: &Layer,
    demands: Demands,
) -> Result<Demands, Memory>
    ensures { IfOk result (λ d. seen_demands d ≡ reached (seen_site site.now) (terms_in site.now terms.now) (seen_demands demands)) }
{
    let left = left_of(alloc, site, terms)?;
    let d = unless(alloc, site.frame, &left, demands)?;
    Ok(d)
}

/// A layer in which the cells under a place have new values.
fn written_layer(
    alloc: Global,
    site: &Site<'_>,
    terms: &Rc<Layer>,
    spot: Spot,
    new: Shown,
) -> Result<Rc<Layer>, Memory>
    ensures { IfOk result (λ r. seen_layer r.value (families_in site.now) ≡ written site.now.frame (terms_in site.now terms.now.value) (seen_spot spot) (seen_shown new (families_in site.now))) }
{
    let before = terms.clone()?;
    let layer = Layer::Written {
        frame: site.frame,
        before,
        spot,
        new,
    };
    let r = shared(alloc, layer)?;
    Ok(r)
}

/// The cells under a place have new values.
fn written(
    alloc: Global,
    site: &Site<'_>,
    terms: &Rc<Layer>,
    spot: Spot,
    new: Shown,
    demands: Demands,
) -> Result<Done, Memory>
    ensures change { IfOk result (λ d. (seen_done site.now d).change ≡ written site.now.frame (terms_in site.now terms.now.value) (seen_spot spot) (seen_shown new (families_in site.now))) }
    ensures demands { IfOk result (λ d. (seen_done site.now d).demands ≡ reached (seen_site site.now) (terms_in site.now terms.now.value) (seen_demands demands)) }
{
    let change = written_layer(alloc, site, terms, spot, new)?;
    let demands = reached(alloc, site, terms, demands)?;
    Ok(Done { change, demands })
}

/// What an assignment of a value demands, after its place.
fn value_fits(
    alloc: Global,
    to: Demands,
    into: Simple,
    from: Demands,
    term: &Term,
) -> Result<Demands, Memory>
    ensures { IfOk result (λ d. seen_demands d ≡ seen_demands to ++ (seen_demands from ++ stored_fits false into term.now)) }
{
    let fits = stored_fits(alloc, false, into, term)?;
    let rest = both(alloc, from, fits)?;
    let d = both(alloc, to, rest)?;
    Ok(d)
}

/// An assignment of a value.
pub fn stored(
    alloc: Global,
    site: &Site<'_>,
    terms: &Rc<Layer>,
    to: Placed,
    into: Simple,
    e: Valued,
) -> Result<Done, Memory>
    ensures { IfOk result (λ d. seen_done site.now d ≡ stored (seen_site site.now) (terms_in site.now terms.now.value) (seen_placed to) into (seen_valued e)) }
{
    let term = e.term;
    let demands = value_fits(alloc, to.demands, into, e.demands, &term)?;
    let new = Shown::Only {
        frame: site.frame,
        term,
    };
    let d = written(alloc, site, terms, to.spot, new, demands)?;
    Ok(d)
}

/// What an assignment of a cell of a plain designator demands, after its places.
fn copied_fits(
    alloc: Global,
    to: Demands,
    into: Simple,
    from: Demands,
    term: &Term,
) -> Result<Demands, Memory>
    ensures { IfOk result (λ d. seen_demands d ≡ seen_demands to ++ (seen_demands from ++ stored_fits true into term.now)) }
{
    let fits = stored_fits(alloc, true, into, term)?;
    let rest = both(alloc, from, fits)?;
    let d = both(alloc, to, rest)?;
    Ok(d)
}

/// An assignment of a cell of a plain designator.
pub fn copied(
    alloc: Global,
    site: &Site<'_>,
    terms: &Rc<Layer>,
    to: Placed,
    into: Simple,
    from: Placed,
) -> Result<Done, Memory>
    ensures { IfOk result (λ d. seen_done site.now d ≡ copied (seen_site site.now) (terms_in site.now terms.now.value) (seen_placed to) into (seen_placed from)) }
{
    let term = read_of(alloc, site, terms, &from.spot)?;
    let demands = copied_fits(alloc, to.demands, into, from.demands, &term)?;
    let new = Shown::Only {
        frame: site.frame,
        term,
    };
    let d = written(alloc, site, terms, to.spot, new, demands)?;
    Ok(d)
}

/// An assignment of the cells of a plain designator.
pub fn copied_all(
    alloc: Global,
    site: &Site<'_>,
    terms: &Rc<Layer>,
    to: Placed,
    from: Placed,
) -> Result<Done, Memory>
    ensures { IfOk result (λ d. seen_done site.now d ≡ copied_all (seen_site site.now) (terms_in site.now terms.now.value) (seen_placed to) (seen_placed from)) }
{
    let demands = both(alloc, to.demands, from.demands)?;
    let source = terms.clone()?;
    let new = Shown::At {
        frame: site.frame,
        from: source,
        spot: from.spot,
    };
    let d = written(alloc, site, terms, to.spot, new, demands)?;
    Ok(d)
}

/// `clear`.
pub fn cleared(
    alloc: Global,
    site: &Site<'_>,
    terms: &Rc<Layer>,
    to: Placed,
    of: &AnyType,
) -> Result<Done, Memory>
    ensures { IfOk result (λ d. seen_done site.now d ≡ set (seen_site site.now) (terms_in site.now terms.now.value) (seen_placed to) (cleared of.now)) }
{
    let of = copy_type(alloc, of)?;
    let d = written(alloc, site, terms, to.spot, Shown::Cleared(of), to.demands)?;
    Ok(d)
}

/// `undefine`.
pub fn undefined(
    alloc: Global,
    site: &Site<'_>,
    terms: &Rc<Layer>,
    to: Placed,
) -> Result<Done, Memory>
    ensures { IfOk result (λ d. seen_done site.now d ≡ set (seen_site site.now) (terms_in site.now terms.now.value) (seen_placed to) all_undefined) }
{
    let d = written(alloc, site, terms, to.spot, Shown::Undefined, to.demands)?;
    Ok(d)
}

fn left(
    alloc: Global,
    site: &Site<'_>,
    terms: &Rc<Layer>,
    of: Option<Term>,
    demands: Demands,
) -> Result<Done, Memory>
    ensures change { IfOk result (λ d. (seen_done site.now d).change ≡ left_change (terms_in site.now terms.now.value) of) }
    ensures demands { IfOk result (λ d. d.demands ≡ demands) }
{
    let before = terms.clone()?;
    let change = shared(alloc, Layer::Left { before, result: of })?;
    Ok(Done { change, demands })
}

/// `return` in a procedure.
pub fn leave(alloc: Global, site: &Site<'_>, terms: &Rc<Layer>) -> Result<Done, Memory>
    ensures { IfOk result (λ d. seen_done site.now d ≡ leave (terms_in site.now terms.now.value)) }
{
    let d = left(alloc, site, terms, None, Demands::Nothing)?;
    Ok(d)
}

fn result_fits(alloc: Global, into: Option<Simple>, e: &Term) -> Result<Demands, Memory>
    ensures { IfOk result (λ d. seen_demands d ≡ result_stored into e.now) }
{
    match into {
        None => Ok(Demands::Nothing),
        Some(into) => {
            let d = stored_fits(alloc, false, into, e)?;
            Ok(d)
        }
    }
}

/// `return` in a function.
pub fn returned(
    alloc: Global,
    site: &Site<'_>,
    terms: &Rc<Layer>,
    e: Valued,
) -> Result<Done, Memory>
    ensures { IfOk result (λ d. seen_done site.now d ≡ returned (seen_site site.now) (terms_in site.now terms.now.value) (seen_valued e)) }
{
    let fits = result_fits(alloc, site.result, &e.term)?;
    let demands = both(alloc, e.demands, fits)?;
    let demands = reached(alloc, site, terms, demands)?;
    let d = left(alloc, site, terms, Some(e.term), demands)?;
    Ok(d)
}

fn unchanged(
    alloc: Global,
    site: &Site<'_>,
    terms: &Rc<Layer>,
    demands: Demands,
) -> Result<Done, Memory>
    ensures change { IfOk result (λ d. (seen_done site.now d).change ≡ (nothing (terms_in site.now terms.now.value)).change) }
    ensures demands { IfOk result (λ d. (seen_done site.now d).demands ≡ reached (seen_site site.now) (terms_in site.now terms.now.value) (seen_demands demands)) }
{
    let change = same_layer(alloc, site, terms)?;
    let demands = reached(alloc, site, terms, demands)?;
    Ok(Done { change, demands })
}

/// `assert`.
pub fn asserted(
    alloc: Global,
    site: &Site<'_>,
    terms: &Rc<Layer>,
    e: Valued,
) -> Result<Done, Memory>
    ensures { IfOk result (λ d. seen_done site.now d ≡ asserted (seen_site site.now) (terms_in site.now terms.now.value) (seen_valued e)) }
{
    let demands = and_one(alloc, e.demands, e.term)?;
    let d = unchanged(alloc, site, terms, demands)?;
    Ok(d)
}

/// `error`.
pub fn failed(alloc: Global, site: &Site<'_>, terms: &Rc<Layer>) -> Result<Done, Memory>
    ensures { IfOk result (λ d. seen_done site.now d ≡ failed (seen_site site.now) (terms_in site.now terms.now.value)) }
{
    let d = unchanged(alloc, site, terms, Demands::One(truth(false)))?;
    Ok(d)
}

/// A layer in which what is changed keeps its terms where a `return` was met before.
fn kept_layer(
    alloc: Global,
    site: &Site<'_>,
    terms: &Rc<Layer>,
    after: Rc<Layer>,
) -> Result<Rc<Layer>, Memory>
    ensures { IfOk result (λ r. seen_layer r.value (families_in site.now) ≡ kept_change site.now.frame (terms_in site.now terms.now.value) (seen_layer after.value (families_in site.now))) }
{
    let before = terms.clone()?;
    let layer = Layer::Kept {
        frame: site.frame,
        before,
        after,
    };
    let r = shared(alloc, layer)?;
    Ok(r)
}

/// A statement keeps what it would change where a `return` was met before it.
pub fn taken(alloc: Global, site: &Site<'_>, terms: &Rc<Layer>, body: Done) -> Result<Done, Memory>
    ensures { IfOk result (λ d. seen_done site.now d ≡ taken (seen_site site.now) (terms_in site.now terms.now.value) (seen_done site.now body)) }
{
    let left = left_of(alloc, site, terms)?;
    if is_false(&left) {
        return Ok(body);
    }
    let change = kept_layer(alloc, site, terms, body.change)?;
    Ok(Done {
        change,
        demands: body.demands,
    })
}

/// The terms under one more variable.
pub fn under_variable(
    alloc: Global,
    site: &Site<'_>,
    terms: &Rc<Layer>,
) -> Result<Rc<Layer>, Memory>
    ensures { IfOk result (λ t. terms_in site.now t.value ≡ under_variable site.now.frame (terms_in site.now terms.now.value)) }
{
    let before = terms.clone()?;
    let layer = Layer::Under {
        frame: site.frame,
        before,
    };
    let t = shared(alloc, layer)?;
    Ok(t)
}

/// A `for` over all nodes.
pub fn for_nodes(
    alloc: Global,
    site: &Site<'_>,
    terms: &Rc<Layer>,
    body: Done,
) -> Result<Done, Memory>
    ensures { IfOk result (λ d. seen_done site.now d ≡ for_nodes (seen_site site.now) (terms_in site.now terms.now.value) (seen_done site.now body)) }
{
    let before = terms.clone()?;
    let layer = Layer::Closed {
        frame: site.frame,
        before,
        body: body.change,
    };
    let change = shared(alloc, layer)?;
    let demands = binding(alloc, body.demands)?;
    Ok(Done { change, demands })
}

/// A call of a procedure, after its body.
pub fn came_back(
    alloc: Global,
    site: &Site<'_>,
    terms: &Rc<Layer>,
    args: Argued,
    body: Done,
) -> Result<Done, Memory>
    ensures { IfOk result (λ d. seen_done site.now d ≡ came_back (seen_site site.now) (terms_in site.now terms.now.value) (seen_argued site.now args) (seen_done site.now body)) }
{
    let demands = both(alloc, args.demands, body.demands)?;
    let demands = reached(alloc, site, terms, demands)?;
    let before = terms.clone()?;
    let layer = Layer::Back {
        before,
        body: body.change,
    };
    let change = shared(alloc, layer)?;
    Ok(Done { change, demands })
}
