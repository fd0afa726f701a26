//! The prefix lengths.
#![tactic(auto, using(crate::proofs::PrefixLemmas::prefixes))]

ghost use Rattle.std.specs.Prelude.{◌≡◌, List, IfOk};
ghost use Rattle.murphi_typed.specs.declared.protocol.Routine.{Routine as TypedRoutine};
ghost use Rattle.murphi_typed.specs.Prefix.{node_parameters, formula_prefix, rule_prefix};
ghost use Rattle.type_prefixes.specs.Walks.{summary, with_summaries, summaries};
ghost use Rattle.type_prefixes.specs.Lengths.{formula_length, rule_length, guard_walked};

use crate::depth::{Depth, added, no_depth};
use crate::expressions::walk;
use crate::statements::walk_stmt;
use murphi_ast::text::Memory;
use murphi_typed::expr::Expr;
use murphi_typed::protocol::{Guard, Parameter, Routine};
use murphi_typed::shared::Shared;
use murphi_typed::stmt::Stmt;
use sqlite_items::Items;
use std::alloc::Global;

/// The depths of all routines of a text, in their order. They are worked out once, in a pass over the
/// bodies; each prefix length below is then a pass over its own rule or formula.
#[derive(Drop)]
pub struct Depths {
    pub all: Items<Depth>,
}

/// The depth of a routine, by those of the routines before it.
fn summarise(alloc: Global, one: &Routine, before: &[Depth]) -> Result<Depth, Memory>
    ensures { IfOk result (λ d. d ≡ summary before.now one.now) }
{
    let depth = walk_stmt(&one.body, before, 0, no_depth(alloc))?;
    Ok(depth)
}

impl Depths {
    /// Of the routines of a typed protocol.
    pub fn of(alloc: Global, routines: &[Routine]) -> Result<Depths, Memory>
        ensures { IfOk result (λ d. d.all ≡ summaries routines.now) }
    {
        let mut all = Items::new(alloc);
        for one in routines {
            let depth = summarise(alloc, one, all.as_slice())?;
            all.push(depth)?;
        }
        Ok(Depths { all })
    }

    /// Of routines with several owners.
    pub fn of_shared(alloc: Global, routines: &[Shared<Routine>]) -> Result<Depths, Memory>
        ensures { IfOk result (λ d. d.all ≡ summaries routines.now) }
    {
        let mut all = Items::new(alloc);
        for one in routines {
            let depth = summarise(alloc, one.get(), all.as_slice())?;
            all.push(depth)?;
        }
        Ok(Depths { all })
    }

    /// The prefix length of a rule, or of a start state, which has no guard, with these parameters.
    pub fn rule_prefix(
        &self,
        alloc: Global,
        params: &[Parameter],
        guard: &Option<Guard>,
        body: &Stmt,
    ) -> Result<u32, Memory>
        ensures { (rs : List TypedRoutine) → self.now.all ≡ summaries rs → IfOk result (λ n. n ≡ rule_prefix rs params.now guard.now body.now) }
    {
        let n = rule_length(alloc, self.all.as_slice(), params, guard, body)?;
        Ok(n)
    }

    /// The prefix length of an invariant with these parameters, or of a lemma, which has none.
    pub fn formula_prefix(
        &self,
        alloc: Global,
        params: &[Parameter],
        body: &Expr,
    ) -> Result<u32, Memory>
        ensures { (rs : List TypedRoutine) → self.now.all ≡ summaries rs → IfOk result (λ n. n ≡ formula_prefix rs params.now body.now) }
    {
        let n = formula_length(alloc, self.all.as_slice(), params, body)?;
        Ok(n)
    }
}

/// How many parameters are nodes.
fn count_nodes(params: &[Parameter]) -> Result<u32, Memory>
    ensures { IfOk result (λ n. n ≡ node_parameters params.now) }
{
    let mut count: u32 = 0;
    for one in params {
        if one.over.is_over_nodes() {
            count = added(count, 1)?;
        }
    }
    Ok(count)
}

fn walk_guard(alloc: Global, routines: &[Depth], guard: &Option<Guard>) -> Result<Depth, Memory>
    ensures { IfOk result (λ d. d ≡ guard_walked routines.now guard.now) }
{
    match guard {
        None => Ok(no_depth(alloc)),
        Some(guard) => {
            let depth = walk(&guard.test, routines, 0, no_depth(alloc))?;
            Ok(depth)
        }
    }
}

fn rule_length(
    alloc: Global,
    routines: &[Depth],
    params: &[Parameter],
    guard: &Option<Guard>,
    body: &Stmt,
) -> Result<u32, Memory>
    ensures { IfOk result (λ n. n ≡ rule_length routines.now params.now guard.now body.now) }
{
    let nodes = count_nodes(params)?;
    let tested = walk_guard(alloc, routines, guard)?;
    let done = walk_stmt(body, routines, 0, no_depth(alloc))?;
    let n = added(nodes, tested.own.max(done.own))?;
    Ok(n)
}

fn formula_length(
    alloc: Global,
    routines: &[Depth],
    params: &[Parameter],
    body: &Expr,
) -> Result<u32, Memory>
    ensures { IfOk result (λ n. n ≡ formula_length routines.now params.now body.now) }
{
    let nodes = count_nodes(params)?;
    let depth = walk(body, routines, 0, no_depth(alloc))?;
    let moved = body.up()?;
    let n = added(nodes, depth.own.max(moved))?;
    Ok(n)
}
