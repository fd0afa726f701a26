//! The items of files, behind their words.
ghost use Rattle.std.specs.Prelude.{◌≡◌, ◌≤◌, ◌++◌, length};
ghost use Rattle.murphi_grammar.specs.declared.symbol.Symbol.TheVariants as t;
ghost use Rattle.murphi_grammar.specs.Names as n;
ghost use Rattle.murphi_grammar.specs.Parts.{one, event_form};
ghost use Rattle.murphi_grammar.specs.Values as v;
ghost use Rattle.murphi_expressions.specs.Says.{Says, Gives, Takes, Goes, Stays};
ghost use Rattle.job_files.specs.Items.{GivesEvents, events_form, events_of};

use murphi_ast::expr::Named;
use murphi_ast::job::{Event, Flow, Lemma};
use murphi_ast::token::Token;
use murphi_expressions::reader::expr;
use murphi_expressions::step::{Stop, expect, is_at, name, named, push, token_at};
use murphi_grammar::symbol::Symbol;
use sqlite_items::Items;
use std::alloc::Global;

/// `name : expr ;`
#[tactic(auto, using(crate::proofs::ItemArms::lemma_arms))]
pub(crate) fn lemma_item(
    alloc: Global,
    tokens: &[Token],
    at: usize,
    room: u32,
) -> Result<(Lemma, usize), Stop>
    requires { at ≤ length tokens.now }
    ensures is { Says n.LemmaItem room tokens.now at result }
    ensures goes { Goes at tokens.now result }
{
    let (name, next) = name(alloc, tokens, at)?;
    let behind = expect(tokens, next, Symbol::Colon)?;
    let (body, last) = expr(alloc, tokens, behind, room)?;
    let end = expect(tokens, last, Symbol::Semicolon)?;
    Ok((Lemma { name, body }, end))
}

/// A string that is to stand at an index: what it holds, and its place.
#[tactic(auto, using(crate::proofs::ItemArms::string_arms))]
fn string(alloc: Global, tokens: &[Token], at: usize) -> Result<(Named, usize), Stop>
    ensures is { Takes (one t.Quoted) v.named tokens.now at result }
    ensures goes { Goes at tokens.now result }
{
    match token_at(tokens, at) {
        None => Err(Stop::Wrong(at)),
        Some(token) => {
            if !is_at(tokens, at, Symbol::Quoted) {
                return Err(Stop::Wrong(at));
            }
            let held = named(alloc, token)?;
            Ok((held, at + 1))
        }
    }
}

/// `string . name`
#[tactic(auto, using(crate::proofs::ItemArms::event_arms))]
fn event(alloc: Global, tokens: &[Token], at: usize) -> Result<(Event, usize), Stop>
    ensures is { Takes event_form v.event tokens.now at result }
    ensures goes { Goes at tokens.now result }
{
    let (rule, next) = string(alloc, tokens, at)?;
    let behind = expect(tokens, next, Symbol::Dot)?;
    let (param, end) = name(alloc, tokens, behind)?;
    Ok((
        Event {
            rule: rule.name,
            param: param.name,
            at: rule.at,
        },
        end,
    ))
}

/// Any number of `, event` behind these.
#[tactic(auto, using(crate::proofs::ItemArms::more_events_arms))]
fn more_events(
    alloc: Global,
    tokens: &[Token],
    at: usize,
    front: Items<Event>,
) -> Result<(Items<Event>, usize), Stop>
    requires { at ≤ length tokens.now }
    ensures is { GivesEvents front tokens.now at result }
    ensures goes { Stays at tokens.now result }
{
    let mut events = front;
    let mut next = at;
    while is_at(tokens, next, Symbol::Comma) {
        let (one, behind) = event(alloc, tokens, next + 1)?;
        push(&mut events, one)?;
        next = behind;
    }
    Ok((events, next))
}

/// `event , event { , event } ;`
#[tactic(auto, using(crate::proofs::ItemArms::events_arms))]
fn events(
    alloc: Global,
    tokens: &[Token],
    at: usize,
    room: u32,
) -> Result<(Items<Event>, usize), Stop>
    requires { at ≤ length tokens.now }
    ensures is { Gives events_form events_of room tokens.now at result }
    ensures goes { Goes at tokens.now result }
{
    let (first, next) = event(alloc, tokens, at)?;
    let behind = expect(tokens, next, Symbol::Comma)?;
    let (second, last) = event(alloc, tokens, behind)?;
    let mut two = Items::new(alloc);
    push(&mut two, first)?;
    push(&mut two, second)?;
    let (all, end) = more_events(alloc, tokens, last, two)?;
    let over = expect(tokens, end, Symbol::Semicolon)?;
    Ok((all, over))
}

/// `name : event , event { , event } ;`
#[tactic(auto, using(crate::proofs::ItemArms::flow_arms))]
pub(crate) fn flow_item(
    alloc: Global,
    tokens: &[Token],
    at: usize,
    room: u32,
) -> Result<(Flow, usize), Stop>
    requires { at ≤ length tokens.now }
    ensures is { Says n.FlowItem room tokens.now at result }
    ensures goes { Goes at tokens.now result }
{
    let (name, next) = name(alloc, tokens, at)?;
    let behind = expect(tokens, next, Symbol::Colon)?;
    let (events, end) = events(alloc, tokens, behind, room)?;
    Ok((Flow { name, events }, end))
}
