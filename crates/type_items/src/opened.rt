//! The routines of a text, with what prefix lengths need of them.

ghost use Rattle.std.specs.Prelude.{◌≡◌, IfOk};
ghost use Rattle.murphi_typed.specs.Prefix.{formula_prefix, rule_prefix};

use murphi_ast::text::Memory;
use murphi_typed::expr::Expr;
use murphi_typed::protocol::{Guard, Parameter, Routine};
use murphi_typed::shared::Shared;
use murphi_typed::stmt::Stmt;
use sqlite_items::Items;
use std::alloc::Global;
use std::marker::Model;
use type_prefixes::prefixes::Depths;

/// The routines of a text, with the depths of their bodies, each of which is walked once. Contracts see the list of
/// the routines.
#[derive(Drop)]
pub struct Opened {
    routines: Items<Shared<Routine>>,
    depths: Depths,
}

impl Model for Opened {
    ghost use Rattle.std.specs.Prelude.{List, ◌≡◌};
    ghost use Rattle.std.specs.Coded.{codes};
    ghost use Rattle.murphi_typed.specs.declared.protocol.Routine.{Routine};
    ghost use Rattle.murphi_typed.specs.contracts.protocol.Routine as routine;
    ghost use Rattle.type_prefixes.specs.Walks.{summaries};

    ghost Value = { List Routine };

    ghost coded = { Prim.hlevel (codes, routine.the_row.coded) };

    ghost view = { λ o. o.routines };

    ghost invariant = { λ o. o.depths.all ≡ summaries o.routines };
}

fn share_all(alloc: Global, all: &[Shared<Routine>]) -> Result<Items<Shared<Routine>>, Memory>
    ensures { IfOk result (λ out. out ≡ all.now) }
{
    let mut out = Items::new(alloc);
    for one in all {
        let shared = one.share()?;
        out.push(shared)?;
    }
    Ok(out)
}

impl Opened {
    /// Of these routines.
    pub fn of(alloc: Global, all: &[Shared<Routine>]) -> Result<Opened, Memory>
        ensures { IfOk result (λ o. o ≡ all.now) }
    {
        let routines = share_all(alloc, all)?;
        let depths = Depths::of_shared(alloc, routines.as_slice())?;
        Ok(Opened { routines, depths })
    }

    /// The prefix length of a rule, or of a start state, which has no guard, with these parameters.
    pub fn rule_prefix(
        &self,
        alloc: Global,
        params: &[Parameter],
        guard: &Option<Guard>,
        body: &Stmt,
    ) -> Result<u32, Memory>
        ensures { IfOk result (λ n. n ≡ rule_prefix self.now params.now guard.now body.now) }
    {
        let n = self.depths.rule_prefix(alloc, params, guard, body)?;
        Ok(n)
    }

    /// The prefix length of an invariant with these parameters.
    pub fn formula_prefix(
        &self,
        alloc: Global,
        params: &[Parameter],
        body: &Expr,
    ) -> Result<u32, Memory>
        ensures { IfOk result (λ n. n ≡ formula_prefix self.now params.now body.now) }
    {
        let n = self.depths.formula_prefix(alloc, params, body)?;
        Ok(n)
    }
}
