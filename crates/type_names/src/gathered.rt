//! What is gathered of a text.
#![tactic(auto, using(crate::proofs::PartLemmas::steps))]

ghost use Rattle.std.specs.Prelude.{◌≡◌, [], ◌∷◌, IfOk};
ghost use Rattle.type_names.specs.Parts.{hidden_by};
ghost use Rattle.type_names.specs.Gathering.{with_use, with_names, with_fault};
ghost use Rattle.type_names.specs.Wholes.{nothing_gathered};

use crate::scope::{Scoped, declare, declare_all, no_names};
use murphi_ast::expr::Named;
use murphi_ast::text::{Memory, Text};
use murphi_ast::token::Span;
use murphi_types::fault::Fault;
use sqlite_items::Items;
use std::alloc::Global;
use type_parts::faults::sooner;

/// The places where a name is used, in text order; the names of the whole text; and the first fault of the
/// scopes within it: records, formals and locals.
#[derive(Drop)]
pub struct Gathered {
    pub uses: Items<Span>,
    pub global: Scoped,
    pub fault: Option<Fault>,
}

/// Whether a name is hidden inside a declaration.
pub fn hidden_by(hidden: bool, name: &Text, bound: &Named) -> bool
    ensures { result ≡ hidden_by hidden name.now bound.now }
{
    if hidden {
        return true;
    }
    bound.name.bytes() == name.bytes()
}

/// A name stands for a value or a variable.
pub fn use_name(
    written: &Named,
    name: &Text,
    hidden: bool,
    so_far: Gathered,
) -> Result<Gathered, Memory>
    ensures { IfOk result (λ g. g ≡ with_use name.now hidden written.now so_far) }
{
    let Gathered {
        uses,
        global,
        fault,
    } = so_far;
    let mut uses = uses;
    if !hidden {
        if written.name.bytes() == name.bytes() {
            uses.push(written.at)?;
        }
    }
    Ok(Gathered {
        uses,
        global,
        fault,
    })
}

/// Names are declared for the whole text.
pub fn add_names(names: &[Named], alloc: Global, so_far: Gathered) -> Result<Gathered, Memory>
    ensures { IfOk result (λ g. g ≡ with_names names.now so_far) }
{
    let Gathered {
        uses,
        global,
        fault,
    } = so_far;
    let global = declare_all(names, alloc, global)?;
    Ok(Gathered {
        uses,
        global,
        fault,
    })
}

/// A scope has a fault.
pub fn add_fault(more: Option<Fault>, so_far: Gathered) -> Gathered
    ensures { result ≡ with_fault more so_far }
{
    let Gathered {
        uses,
        global,
        fault,
    } = so_far;
    Gathered {
        uses,
        global,
        fault: sooner(fault, more),
    }
}

/// One name is declared for the whole text.
pub fn add_name(name: &Named, alloc: Global, so_far: Gathered) -> Result<Gathered, Memory>
    ensures { IfOk result (λ g. g ≡ with_names (name.now ∷ []) so_far) }
{
    let Gathered {
        uses,
        global,
        fault,
    } = so_far;
    let global = declare(name, alloc, global)?;
    Ok(Gathered {
        uses,
        global,
        fault,
    })
}

/// Nothing is gathered yet.
pub fn nothing_gathered(alloc: Global) -> Gathered
    ensures { result ≡ nothing_gathered }
{
    Gathered {
        uses: Items::new(alloc),
        global: no_names(alloc),
        fault: None,
    }
}
