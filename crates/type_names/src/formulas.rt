//! Names of a lemma, which stands beside a typed protocol: those that it declares twice, and the uses of a name.
#![tactic(auto, using(crate::proofs::FormulaLemmas::formulas))]

ghost use Rattle.std.specs.Prelude.{◌≡◌, ◌++◌, map, IfOk};
ghost use Rattle.murphi_typed.specs.declared.protocol.Declared.{Declared as GlobalName};
ghost use Rattle.murphi_types.specs.Faults.{first_fault};
ghost use Rattle.murphi_types.specs.Repeats.{repeats, enum_names, field_repeats};
ghost use Rattle.murphi_types.specs.Uses.{uses_of};
ghost use Rattle.type_names.specs.Known.{with_known, known_scope, gathered_of};

use crate::expressions::walk;
use crate::gathered::Gathered;
use crate::scope::{Scoped, no_names};
use murphi_ast::expr::Expr;
use murphi_ast::text::{Memory, Text};
use murphi_ast::token::Span;
use murphi_typed::protocol::Declared;
use murphi_types::fault::Fault;
use murphi_types::names::Names;
use murphi_types::scope::{Entry, Meaning};
use sqlite_items::Items;
use std::alloc::Global;
use type_parts::faults::sooner;

/// The scope of names that were declared before.
fn known_scope(global: &[Declared], alloc: Global) -> Result<Scoped, Memory>
    ensures { IfOk result (λ d. d ≡ known_scope global.now) }
{
    let mut names = Names::new(alloc);
    for one in global {
        let name = one.name.copy(alloc)?;
        names.push(
            alloc,
            Entry {
                name,
                what: Meaning::Refused,
            },
        )?;
    }
    Ok(Scoped { names, fault: None })
}

fn gather(e: &Expr, alloc: Global, name: &Text, global: Scoped) -> Result<Gathered, Memory>
    ensures { IfOk result (λ g. g ≡ gathered_of name.now e.now global) }
{
    let nothing = Gathered {
        uses: Items::new(alloc),
        global,
        fault: None,
    };
    let g = walk(e, alloc, name, false, nothing)?;
    Ok(g)
}

/// The first enum name of a lemma that is a global name or was written before in it, or the first field of a
/// record in it that was there before.
pub fn lemma_repeats(e: &Expr, alloc: Global, global: &[Declared]) -> Result<Option<Fault>, Memory>
    ensures { IfOk result (λ f. f ≡ first_fault (repeats (map (λ (n : GlobalName). n.name) global.now) (enum_names e.now) ++ field_repeats e.now)) }
{
    let none = Text::make(alloc, &[])?;
    let scope = known_scope(global, alloc)?;
    let g = gather(e, alloc, &none, scope)?;
    Ok(sooner(g.global.fault, g.fault))
}

/// The places where a name of the whole text is used in a lemma, in text order.
pub fn lemma_uses(e: &Expr, alloc: Global, name: &Option<Text>) -> Result<Items<Span>, Memory>
    ensures { IfOk result (λ v. v ≡ uses_of name.now e.now) }
{
    match name {
        None => Ok(Items::new(alloc)),
        Some(name) => {
            let g = gather(e, alloc, name, no_names(alloc))?;
            let Gathered { uses, .. } = g;
            Ok(uses)
        }
    }
}
