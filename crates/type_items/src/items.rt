//! Rules, start states and invariants, in the rulesets around them, in text order.
#![tactic(auto, using(crate::proofs::ItemEquations::forms))]

ghost use Rattle.std.specs.Prelude.{◌≡◌, None, IfOk};
ghost use Rattle.murphi_types.specs.Items.{items_found};
ghost use Rattle.murphi_types.specs.Texts.{around_nothing, no_items};
ghost use Rattle.type_items.specs.Gathering.{items_part, gathered, items_given, item_with, list_with};

use crate::added::left;
use crate::bodies::{judge_body, judge_claim};
use crate::gathered::{Gathered, Inside, Made};
use crate::judged::JudgedItems;
use crate::limits::past_of;
use crate::opened::Opened;
use crate::rulesets::{enter, mark_of, seen};
use crate::steps::{invariant_made, rule_made, start_made};
use crate::titles::no_items_yet;
use murphi_ast::rule::RuleDecl;
use murphi_ast::text::{Memory, Text};
use murphi_ast::token::Span;
use sqlite_items::Items;
use std::alloc::Global;
use type_parts::context::Context;

/// One item more. `past` is the first name of a list of parameters that passes their limit, and `size` the name of
/// the constant that is the size of the node type.
#[cycle(items)]
fn item(
    one: &RuleDecl,
    alloc: Global,
    opened: &Opened,
    past: Option<Span>,
    size: &Option<Text>,
    done: Gathered,
) -> Result<Gathered, Memory>
    ensures { IfOk result (λ g. g ≡ item_with opened.now past size.now one.now done) }
{
    let Gathered { inside, made } = done;
    match one {
        RuleDecl::Rule {
            title,
            guard,
            locals,
            body,
            at,
        } => {
            let bodied = judge_body(alloc, inside, guard, locals.as_slice(), body.as_slice())?;
            let done = rule_made(alloc, opened, past, title, *at, bodied, made)?;
            Ok(done)
        }
        RuleDecl::Start {
            title,
            locals,
            body,
            at,
        } => {
            let bodied = judge_body(alloc, inside, &None, locals.as_slice(), body.as_slice())?;
            let done = start_made(alloc, opened, past, title, *at, bodied, made)?;
            Ok(done)
        }
        RuleDecl::Invariant { title, body, at } => {
            let claimed = judge_claim(alloc, inside, body)?;
            let done = invariant_made(alloc, opened, size, title, body, *at, claimed, made)?;
            Ok(done)
        }
        RuleDecl::Group { binds, items, .. } => {
            let mark = mark_of(&inside);
            let inside = enter(alloc, inside, binds.as_slice())?;
            let past = past_of(past, binds.as_slice(), inside.params.as_slice())?;
            let size = seen(binds.as_slice(), size, &None);
            let done = Gathered { inside, made };
            let done = list(items.as_slice(), alloc, opened, past, size, done)?;
            Ok(left(done, mark))
        }
    }
}

/// Items in turn.
#[cycle(items)]
fn list(
    all: &[RuleDecl],
    alloc: Global,
    opened: &Opened,
    past: Option<Span>,
    size: &Option<Text>,
    done: Gathered,
) -> Result<Gathered, Memory>
    ensures { IfOk result (λ g. g ≡ list_with opened.now past size.now all.now done) }
{
    let mut done = done;
    for one in all {
        done = item(one, alloc, opened, past, size, done)?;
    }
    Ok(done)
}

/// No items yet.
fn nothing_gathered(alloc: Global, context: Context) -> Gathered
    ensures { result ≡ gathered (around_nothing context.scope None) (no_items context.known) }
{
    Gathered {
        inside: Inside {
            context,
            params: Items::new(alloc),
            fault: None,
        },
        made: Made {
            rules: Items::new(alloc),
            rule_numbers: no_items_yet(alloc),
            starts: Items::new(alloc),
            start_numbers: no_items_yet(alloc),
            invariants: Items::new(alloc),
            invariant_numbers: no_items_yet(alloc),
        },
    }
}

fn items_of(done: Gathered) -> JudgedItems
    ensures { result ≡ items_given done }
{
    let Gathered { inside, made } = done;
    let Inside { context, fault, .. } = inside;
    JudgedItems {
        rules: made.rules,
        starts: made.starts,
        invariants: made.invariants,
        known: context.known,
        fault,
    }
}

/// The items of a text, where its declarations are in scope. `size` is the name of the constant that is the size of
/// the node type.
pub fn items(
    alloc: Global,
    context: Context,
    size: &Option<Text>,
    all: &[RuleDecl],
) -> Result<JudgedItems, Memory>
    ensures { IfOk result (λ r. r ≡ items_part (items_found (around_nothing context.scope size.now) all.now (no_items context.known))) }
{
    let routines = context.known.routines.as_slice();
    let opened = Opened::of(alloc, routines)?;
    let start = nothing_gathered(alloc, context);
    let done = list(all, alloc, &opened, None, size, start)?;
    let given = items_of(done);
    Ok(given)
}
