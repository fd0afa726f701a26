//! What stands at the top of a rule, a start or a formula: its parameters, and the terms before anything is done.

#![tactic(auto, using(crate::proofs::TopEquations::topping))]

ghost use Rattle.std.specs.Prelude.{◌≡◌, IfOk};
ghost use Rattle.rule_inline.specs.Machine.{first_terms, parameter_terms, top_site};
ghost use Rattle.rule_forms.specs.Seen.{families_in, seen_site, terms_in};

use murphi_typed::protocol::Routine;
use murphi_typed::shared::Shared;
use rule_forms::site::Site;
use rule_forms::statement::shared;
use rule_parts::family::Family;
use rule_parts::layer::Layer;
use rule_parts::place::holes;
use rule_terms::build::added;
use sqlite_items::Items;
use std::alloc::Global;
use std::rc::Rc;
use term_core::term::Term;
use term_core::text::Memory;
use term_core::value::Value;

/// The terms of the parameters: those that are nodes are the variables from the first on.
fn parameter_terms(alloc: Global, key: &[Option<Value>]) -> Result<Items<Term>, Memory>
    ensures { IfOk result (λ ts. ts ≡ parameter_terms 0 key.now) }
{
    let mut out = Items::new(alloc);
    let mut next = 0u32;
    for part in key {
        match part {
            Some(v) => out.push(Term::Known(*v))?,
            None => {
                out.push(Term::Var(next))?;
                next = added(next, 1)?;
            }
        }
    }
    Ok(out)
}

/// The site of an instance.
pub fn top_site<'a>(
    alloc: Global,
    families: &'a [Family],
    routines: &'a [Shared<Routine>],
    key: &[Option<Value>],
) -> Result<Site<'a>, Memory>
    ensures site { IfOk result (λ s. seen_site s ≡ top_site key.now) }
    ensures families { IfOk result (λ s. s.families.now ≡ families.now) }
    ensures routines { IfOk result (λ s. s.routines.now ≡ routines.now) }
{
    let frame = holes(key)?;
    let bound = parameter_terms(alloc, key)?;
    Ok(Site {
        families,
        routines,
        frame,
        depth: 0,
        result: None,
        bound,
        formals: Items::new(alloc),
    })
}

/// The terms before anything is done.
pub fn top_terms(alloc: Global, site: &Site<'_>) -> Result<Rc<Layer>, Memory>
    ensures { IfOk result (λ t. terms_in site.now t.value ≡ first_terms (families_in site.now) site.now.frame) }
{
    let t = shared(alloc, Layer::First { frame: site.frame })?;
    Ok(t)
}
