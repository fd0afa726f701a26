//! Rules, start states, invariants and rulesets. Those that hold other items are one cycle.
ghost use Rattle.std.specs.Prelude.{◌≡◌, ◌≤◌, length};
ghost use Rattle.murphi_grammar.specs.Names as n;
ghost use Rattle.murphi_grammar.specs.Parts.{form, optional};
ghost use Rattle.murphi_grammar.specs.Pieces.{cut};
ghost use Rattle.murphi_expressions.specs.Says.{Says, Gives, Takes, Goes, Stays, itself};
ghost use Rattle.murphi_protocols.specs.Parts.{after, added, item_option, group_form, group_of};

use crate::begins::{begins_expression, begins_item};
use crate::declaration::locals;
use crate::list::push_some;
use crate::routine::body;
use crate::statement::stmts;
use crate::title::title;
use murphi_ast::decl::Decl;
use murphi_ast::expr::{Bind, Expr};
use murphi_ast::rule::RuleDecl;
use murphi_ast::stmt::Stmt;
use murphi_ast::token::Token;
use murphi_expressions::reader::{bind, expr};
use murphi_expressions::step::{Stop, expect, expect_end, is_at, open, place_at, push};
use murphi_grammar::symbol::Symbol;
use sqlite_items::Items;
use std::alloc::Global;

/// What stands behind `rule string?`.
#[tactic(auto, using(crate::proofs::ItemArms::rule_rest_arms))]
fn rule_rest(
    alloc: Global,
    tokens: &[Token],
    at: usize,
    room: u32,
) -> Result<((Option<Expr>, (Items<Decl>, Items<Stmt>)), usize), Stop>
    requires { at ≤ length tokens.now }
    ensures is { Says (n.Cut n.RuleRest) room tokens.now at result }
    ensures goes { Goes at tokens.now result }
{
    if begins_expression(tokens, at) {
        let (guard, next) = expr(alloc, tokens, at, room)?;
        let behind = expect(tokens, next, Symbol::DoubleArrow)?;
        let (parts, last) = body(alloc, tokens, behind, room)?;
        let end = expect_end(tokens, last, Symbol::EndRule)?;
        return Ok(((Some(guard), parts), end));
    }
    let (locals, next) = locals(alloc, tokens, at, room)?;
    let behind = expect(tokens, next, Symbol::Begin)?;
    let (stmts, last) = stmts(alloc, tokens, behind, room)?;
    let end = expect_end(tokens, last, Symbol::EndRule)?;
    Ok(((None, (locals, stmts)), end))
}

/// Any number of `; bind` behind these.
#[tactic(auto, using(crate::proofs::ItemLoops::more_binds_arms))]
fn more_binds(
    alloc: Global,
    tokens: &[Token],
    at: usize,
    room: u32,
    front: Items<Bind>,
) -> Result<(Items<Bind>, usize), Stop>
    requires { at ≤ length tokens.now }
    ensures is { Gives (cut n.MoreBinds) (after front) room tokens.now at result }
    ensures goes { Stays at tokens.now result }
{
    let mut binds = front;
    let mut next = at;
    while is_at(tokens, next, Symbol::Semicolon) {
        let (one, behind) = bind(alloc, tokens, next + 1, room)?;
        push(&mut binds, one)?;
        next = behind;
    }
    Ok((binds, next))
}

/// An item.
#[cycle(items)]
#[tactic(auto, using(crate::proofs::ItemArms::item_arms))]
pub fn item(
    alloc: Global,
    tokens: &[Token],
    at: usize,
    room: u32,
) -> Result<(RuleDecl, usize), Stop>
    requires { at ≤ length tokens.now }
    ensures is { Says n.Item room tokens.now at result }
    ensures goes { Goes at tokens.now result }
{
    let word = place_at(tokens, at);
    if is_at(tokens, at, Symbol::Rule) {
        let inside = open(tokens, at, Symbol::Rule, room)?;
        let (title, next) = title(alloc, tokens, at + 1)?;
        let ((guard, (locals, body)), end) = rule_rest(alloc, tokens, next, inside)?;
        let tree = RuleDecl::Rule {
            title,
            guard,
            locals,
            body,
            at: word,
        };
        return Ok((tree, end));
    }
    if is_at(tokens, at, Symbol::StartState) {
        let inside = open(tokens, at, Symbol::StartState, room)?;
        let (title, next) = title(alloc, tokens, at + 1)?;
        let ((locals, body), last) = body(alloc, tokens, next, inside)?;
        let end = expect_end(tokens, last, Symbol::EndStartState)?;
        let tree = RuleDecl::Start {
            title,
            locals,
            body,
            at: word,
        };
        return Ok((tree, end));
    }
    if is_at(tokens, at, Symbol::Invariant) {
        let inside = open(tokens, at, Symbol::Invariant, room)?;
        let (title, next) = title(alloc, tokens, at + 1)?;
        let (body, end) = expr(alloc, tokens, next, inside)?;
        let tree = RuleDecl::Invariant {
            title,
            body,
            at: word,
        };
        return Ok((tree, end));
    }
    group(alloc, tokens, at, room)
}

/// `ruleset bind { ; bind } do rules end`
#[cycle(items)]
#[tactic(auto, using(crate::proofs::ItemArms::group_arms))]
fn group(alloc: Global, tokens: &[Token], at: usize, room: u32) -> Result<(RuleDecl, usize), Stop>
    requires { at ≤ length tokens.now }
    ensures is { Gives group_form group_of room tokens.now at result }
    ensures goes { Goes at tokens.now result }
{
    let inside = open(tokens, at, Symbol::RuleSet, room)?;
    let (first, next) = bind(alloc, tokens, at + 1, inside)?;
    let mut front = Items::new(alloc);
    push(&mut front, first)?;
    let (binds, word) = more_binds(alloc, tokens, next, inside, front)?;
    let behind = expect(tokens, word, Symbol::Do)?;
    let (items, last) = items(alloc, tokens, behind, inside)?;
    let end = expect_end(tokens, last, Symbol::EndRuleSet)?;
    let tree = RuleDecl::Group {
        binds,
        items,
        at: place_at(tokens, at),
    };
    Ok((tree, end))
}

/// `item? { ; item? }`
#[cycle(items)]
#[tactic(auto, using(crate::proofs::ItemLoops::items_arms))]
fn items(
    alloc: Global,
    tokens: &[Token],
    at: usize,
    room: u32,
) -> Result<(Items<RuleDecl>, usize), Stop>
    requires { at ≤ length tokens.now }
    ensures is { Says n.Items room tokens.now at result }
    ensures goes { Stays at tokens.now result }
{
    let (first, behind) = optional_item(alloc, tokens, at, room)?;
    let (items, end) = more_items(alloc, tokens, behind, room, first)?;
    Ok((items, end))
}

/// `item?`
#[cycle(items)]
#[tactic(auto, using(crate::proofs::ItemArms::optional_item_arms))]
fn optional_item(
    alloc: Global,
    tokens: &[Token],
    at: usize,
    room: u32,
) -> Result<(Option<RuleDecl>, usize), Stop>
    requires { at ≤ length tokens.now }
    ensures is { Gives (optional (form n.Item)) item_option room tokens.now at result }
    ensures goes { Stays at tokens.now result }
{
    if !begins_item(tokens, at) {
        return Ok((None, at));
    }
    let (one, end) = item(alloc, tokens, at, room)?;
    Ok((Some(one), end))
}

/// Any number of `; item?` behind an item, or behind none.
#[cycle(items)]
#[tactic(auto, using(crate::proofs::ItemLoops::more_items_arms))]
pub fn more_items(
    alloc: Global,
    tokens: &[Token],
    at: usize,
    room: u32,
    first: Option<RuleDecl>,
) -> Result<(Items<RuleDecl>, usize), Stop>
    requires { at ≤ length tokens.now }
    ensures is { Gives (cut n.MoreItems) (after (added first)) room tokens.now at result }
    ensures goes { Stays at tokens.now result }
{
    let mut items = Items::new(alloc);
    push_some(&mut items, first)?;
    let mut next = at;
    while is_at(tokens, next, Symbol::Semicolon) {
        let (one, behind) = optional_item(alloc, tokens, next + 1, room)?;
        push_some(&mut items, one)?;
        next = behind;
    }
    Ok((items, next))
}
