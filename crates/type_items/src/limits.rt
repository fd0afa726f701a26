//! The limits of one item: node parameters, instances, weight.
#![tactic(auto, using(crate::proofs::LimitLemmas::limits))]

ghost use Rattle.std.specs.Prelude.{◌≡◌, IfOk};
ghost use Rattle.murphi_typed.specs.Prefix.{node_parameters};
ghost use Rattle.murphi_types.specs.Weights.{stopped};
ghost use Rattle.murphi_types.specs.Items.{instances, past_of, first_name};
ghost use Rattle.type_items.specs.Limits.{past_fault, instance_fault, weight_fault, limit_of};

use murphi_ast::expr::Bind;
use murphi_ast::text::Memory;
use murphi_ast::token::Span;
use murphi_typed::protocol::Parameter;
use murphi_types::fault::{Cause, Fault, Quantity};
use type_forms::written::turns;
use type_parts::faults::{sooner, unless};
use type_parts::weights::times;

/// A rule or start state has at most so many node parameters.
const MOST_PARAMETERS: u64 = 3;

/// All items of one kind have at most so many instances.
const MOST_INSTANCES: u64 = 1000;

/// An item has at most this weight.
const MOST_WEIGHT: u64 = 10000;

/// How many parameters are nodes.
fn count_nodes(params: &[Parameter]) -> Result<u64, Memory>
    ensures { IfOk result (λ n. n ≡ node_parameters params.now) }
{
    let mut count: u64 = 0;
    for one in params {
        if one.over.is_over_nodes() {
            count = count.checked_add(1).ok_or(Memory)?;
        }
    }
    Ok(count)
}

fn first_name(binds: &[Bind]) -> Option<Span>
    ensures { result ≡ first_name binds.now }
{
    match binds {
        [] => None,
        [first, ..] => Some(first.name.at),
    }
}

/// The first name of the first list that passes the limit of node parameters, if there is one: with these
/// parameters, the last of which are those of the list.
pub fn past_of(
    past: Option<Span>,
    binds: &[Bind],
    params: &[Parameter],
) -> Result<Option<Span>, Memory>
    ensures { IfOk result (λ p. p ≡ past_of past binds.now params.now) }
{
    match past {
        Some(at) => Ok(Some(at)),
        None => {
            let count = count_nodes(params)?;
            if MOST_PARAMETERS < count {
                return Ok(first_name(binds));
            }
            Ok(None)
        }
    }
}

/// The fault of too many node parameters.
pub fn past_fault(past: Option<Span>, params: &[Parameter]) -> Result<Option<Fault>, Memory>
    ensures { IfOk result (λ f. f ≡ past_fault past params.now) }
{
    match past {
        None => Ok(None),
        Some(at) => {
            let count = count_nodes(params)?;
            Ok(Some(Fault {
                cause: Cause::E16 {
                    quantity: Quantity::Parameters,
                    count,
                    limit: MOST_PARAMETERS,
                },
                at,
            }))
        }
    }
}

/// How many instances an item with these parameters has.
pub fn instances(params: &[Parameter]) -> u64
    ensures { result ≡ stopped (instances params.now) }
{
    let mut count = 1;
    for one in params {
        count = times(count, turns(Some(one.over)));
    }
    count
}

fn instance_fault(at: Span, count: u64) -> Option<Fault>
    ensures { result ≡ instance_fault at count }
{
    unless(
        count <= MOST_INSTANCES,
        Cause::E16 {
            quantity: Quantity::Instances,
            count,
            limit: MOST_INSTANCES,
        },
        at,
    )
}

fn weight_fault(at: Span, weight: u64) -> Option<Fault>
    ensures { result ≡ weight_fault at weight }
{
    unless(
        weight <= MOST_WEIGHT,
        Cause::E16 {
            quantity: Quantity::Weight,
            count: weight,
            limit: MOST_WEIGHT,
        },
        at,
    )
}

/// The first limit that a well-typed item passes, of its instances with those before it, its weight, and one more.
pub fn limit_of(
    typed: bool,
    at: Span,
    count: u64,
    weight: u64,
    more: Option<Fault>,
) -> Option<Fault>
    ensures { result ≡ limit_of typed at count weight more }
{
    if typed {
        let rest = sooner(weight_fault(at, weight), more);
        sooner(instance_fault(at, count), rest)
    } else {
        None
    }
}
