//! One item more, whose parts are typed.
#![tactic(auto, using(crate::proofs::MadeLemmas::steps))]

ghost use Rattle.std.specs.Prelude.{◌≡◌, IfOk};
ghost use Rattle.type_items.specs.Titles.{titled};
ghost use Rattle.type_items.specs.Gathering.{rule_tree, rule_added, rule_done, start_tree, start_added, start_done, invariant_tree, invariant_added, invariant_done};

use crate::added::{
    add_invariant, add_rule, add_start, body_fault, claim_fault, invariant_of, rule_of, start_of,
    with_fault,
};
use crate::gathered::{Bodied, Claimed, Gathered, JudgedBody, Made};
use crate::limits::instances;
use crate::opened::Opened;
use murphi_ast::expr::Expr;
use murphi_ast::text::{Memory, Text};
use murphi_ast::token::Span;
use murphi_typed::expr::Expr as Tree;
use murphi_typed::protocol::Parameter;
use std::alloc::Global;
use type_parts::weights::plus;

/// The next rule, which has so many instances.
fn next_rule(
    alloc: Global,
    opened: &Opened,
    title: &Option<Text>,
    count: u64,
    params: &[Parameter],
    part: JudgedBody,
    made: Made,
) -> Result<Made, Memory>
    ensures { IfOk result (λ m. m ≡ rule_added title.now count (rule_tree opened.now (titled made.rule_numbers title.now) params.now part) made) }
{
    let text = made.rule_numbers.title(alloc, title)?;
    let one = rule_of(alloc, opened, text, params, part)?;
    let made = add_rule(alloc, title, count, one, made)?;
    Ok(made)
}

/// One rule more, whose guard, locals and body are typed.
pub fn rule_made(
    alloc: Global,
    opened: &Opened,
    past: Option<Span>,
    title: &Option<Text>,
    at: Span,
    bodied: Bodied,
    made: Made,
) -> Result<Gathered, Memory>
    ensures { IfOk result (λ g. g ≡ rule_done opened.now past title.now at bodied made) }
{
    let Bodied { inside, part } = bodied;
    let params = inside.params.as_slice();
    let own = instances(params);
    let count = plus(made.rule_numbers.instances, own);
    let fault = body_fault(past, at, count, params, &part)?;
    let made = next_rule(alloc, opened, title, own, params, part, made)?;
    let inside = with_fault(fault, inside);
    Ok(Gathered { inside, made })
}

/// The next start state, which has so many instances.
fn next_start(
    alloc: Global,
    opened: &Opened,
    title: &Option<Text>,
    count: u64,
    params: &[Parameter],
    part: JudgedBody,
    made: Made,
) -> Result<Made, Memory>
    ensures { IfOk result (λ m. m ≡ start_added title.now count (start_tree opened.now (titled made.start_numbers title.now) params.now part) made) }
{
    let text = made.start_numbers.title(alloc, title)?;
    let one = start_of(alloc, opened, text, params, part)?;
    let made = add_start(alloc, title, count, one, made)?;
    Ok(made)
}

/// One start state more, whose locals and body are typed.
pub fn start_made(
    alloc: Global,
    opened: &Opened,
    past: Option<Span>,
    title: &Option<Text>,
    at: Span,
    bodied: Bodied,
    made: Made,
) -> Result<Gathered, Memory>
    ensures { IfOk result (λ g. g ≡ start_done opened.now past title.now at bodied made) }
{
    let Bodied { inside, part } = bodied;
    let params = inside.params.as_slice();
    let own = instances(params);
    let count = plus(made.start_numbers.instances, own);
    let fault = body_fault(past, at, count, params, &part)?;
    let made = next_start(alloc, opened, title, own, params, part, made)?;
    let inside = with_fault(fault, inside);
    Ok(Gathered { inside, made })
}

/// The next invariant, which has so many instances.
fn next_invariant(
    alloc: Global,
    opened: &Opened,
    size: &Option<Text>,
    title: &Option<Text>,
    written: &Expr,
    count: u64,
    params: &[Parameter],
    tree: Tree,
    made: Made,
) -> Result<Made, Memory>
    ensures { IfOk result (λ m. m ≡ invariant_added title.now count (invariant_tree opened.now size.now written.now (titled made.invariant_numbers title.now) params.now tree) made) }
{
    let text = made.invariant_numbers.title(alloc, title)?;
    let one = invariant_of(alloc, opened, size, written, text, params, tree)?;
    let made = add_invariant(alloc, title, count, one, made)?;
    Ok(made)
}

/// One invariant more, whose expression is typed.
pub fn invariant_made(
    alloc: Global,
    opened: &Opened,
    size: &Option<Text>,
    title: &Option<Text>,
    written: &Expr,
    at: Span,
    claimed: Claimed,
    made: Made,
) -> Result<Gathered, Memory>
    ensures { IfOk result (λ g. g ≡ invariant_done opened.now size.now title.now written.now at claimed made) }
{
    let own = instances(claimed.inside.params.as_slice());
    let count = plus(made.invariant_numbers.instances, own);
    let fault = claim_fault(at, count, &claimed);
    let Claimed { inside, part } = claimed;
    let params = inside.params.as_slice();
    let made = next_invariant(
        alloc, opened, size, title, written, own, params, part.tree, made,
    )?;
    let inside = with_fault(fault, inside);
    Ok(Gathered { inside, made })
}
