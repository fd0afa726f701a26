//! The entry of a routine's body.

#![tactic(auto, using(crate::proofs::EntryEquations::entering))]

ghost use Rattle.std.specs.Prelude.{◌≡◌, [], suc, IfOk};
ghost use Rattle.rule_inline.specs.Parts.{stored_fits};
ghost use Rattle.rule_inline.specs.Bodies.{entered, called_site, formal_fits, formals_fit};
ghost use Rattle.murphi_typed.specs.Execution.{simple_type};
ghost use Rattle.rule_terms.specs.Gathered.{seen_demands};
ghost use Rattle.rule_parts.specs.Layers.{seen_given, seen_shown, givens};
ghost use Rattle.rule_forms.specs.Seen.{families_in, seen_site, terms_in};

use murphi_ast::text::Text;
use murphi_typed::protocol::{Formal, Routine};
use murphi_typed::shared::Shared;
use murphi_typed::types::{AnyType, Simple};
use rule_forms::site::{Site, copy_givens};
use rule_forms::statement::shared;
use rule_parts::layer::{Given, Layer, Shown};
use rule_parts::now::shown;
use rule_terms::build::added;
use rule_terms::condition::stored_fits;
use rule_terms::demand::{Demands, both};
use sqlite_items::Items;
use std::alloc::Global;
use std::rc::Rc;
use term_core::text::Memory;
use term_core::value::Value;

/// The site of a called routine, which calls those of the list.
pub fn entered_site<'a>(
    alloc: Global,
    site: &Site<'a>,
    earlier: &'a [Shared<Routine>],
    r: &Routine,
    given: &[Given],
) -> Result<Site<'a>, Memory>
    ensures site { IfOk result (λ s. seen_site s ≡ called_site (seen_site site.now) r.now.result (givens (families_in site.now) given.now)) }
    ensures families { IfOk result (λ s. s.families.now ≡ site.now.families.now) }
    ensures routines { IfOk result (λ s. s.routines.now ≡ earlier.now) }
{
    let formals = copy_givens(alloc, given)?;
    let depth = added(site.depth, 1)?;
    Ok(Site {
        families: site.families,
        routines: earlier,
        frame: site.frame,
        depth,
        result: r.result,
        bound: Items::new(alloc),
        formals,
    })
}

/// The terms at the entry of a body.
pub fn entered(
    alloc: Global,
    site: &Site<'_>,
    terms: &Rc<Layer>,
    given: &[Given],
) -> Result<Rc<Layer>, Memory>
    ensures { IfOk result (λ t. terms_in site.now t.value ≡ entered (suc site.now.depth) (givens (families_in site.now) given.now) (terms_in site.now terms.now.value)) }
{
    let depth = added(site.depth, 1)?;
    let given = copy_givens(alloc, given)?;
    let before = terms.clone()?;
    let layer = Layer::Entered {
        depth,
        given,
        before,
    };
    let t = shared(alloc, layer)?;
    Ok(t)
}

fn simple_type(of: &AnyType) -> Option<Simple>
    ensures { result ≡ simple_type of.now }
{
    match of {
        AnyType::Simple(one) => Some(*one),
        AnyType::Record { .. } | AnyType::Array { .. } => None,
    }
}

fn filled_fits(
    alloc: Global,
    site: &Site<'_>,
    plain: bool,
    into: Simple,
    filled: &Shown,
) -> Result<Demands, Memory>
    ensures { IfOk result (λ d. seen_demands d ≡ stored_fits plain into (seen_shown filled.now (families_in site.now) [] [])) }
{
    let path: Items<Text> = Items::new(alloc);
    let key: Items<Option<Value>> = Items::new(alloc);
    let t = shown(
        alloc,
        site.families,
        filled,
        path.as_slice(),
        key.as_slice(),
    )?;
    let d = stored_fits(alloc, plain, into, &t)?;
    Ok(d)
}

/// A formal by value takes its argument in the same way as an assignment.
fn formal_fits(alloc: Global, site: &Site<'_>, f: &Formal, g: &Given) -> Result<Demands, Memory>
    ensures { IfOk result (λ d. seen_demands d ≡ formal_fits (simple_type f.now.of) (seen_given g.now (families_in site.now))) }
{
    match simple_type(&f.of) {
        None => Ok(Demands::Nothing),
        Some(into) => match g {
            Given::Standing(_) => Ok(Demands::Nothing),
            Given::Filled { plain, shown, .. } => {
                let d = filled_fits(alloc, site, *plain, into, shown)?;
                Ok(d)
            }
        },
    }
}

/// What is demanded before a body is entered.
pub fn given_fits(
    alloc: Global,
    site: &Site<'_>,
    formals: &[Formal],
    given: &[Given],
) -> Result<Demands, Memory>
    ensures { IfOk result (λ d. seen_demands d ≡ formals_fit formals.now (givens (families_in site.now) given.now)) }
{
    let mut out = Demands::Nothing;
    for i in 0..formals.len() {
        if i < given.len() {
            let more = formal_fits(alloc, site, &formals[i], &given[i])?;
            out = both(alloc, out, more)?;
        } else {
            return Ok(out);
        }
    }
    Ok(out)
}
