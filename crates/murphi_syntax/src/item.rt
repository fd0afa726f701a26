//! The reader of items: rules, start states and invariants, from an index of the tokens.
ghost use Rattle.std.specs.Prelude.{◌≡◌, ◌+◌, ◌<◌, ◌≤◌, length, drop, IfOk, IsTrue};
ghost use Rattle.murphi_ast.specs.declared.terminal.Terminal.TheVariants as t;
ghost use Rattle.murphi_syntax.specs.Reading.{head};
ghost use Rattle.murphi_syntax.specs.Protocols.{ends_rule, ends_start};
ghost use Rattle.murphi_syntax.specs.Steps.{reached, step_reached, IsFurther, TakesOne, IsTitle, IsGuarded, IsItem, AreItems, ItemStep};

use crate::expr::{ExprRead, place_at, terminal_at, token_at};
use crate::reader::implication;
use crate::statement::{behind_one, stmts};
use crate::step::{ReadOf, Step};
use murphi_ast::expr::Expr;
use murphi_ast::rule::RuleDecl;
use murphi_ast::terminal::{Terminal, terminal_of};
use murphi_ast::text::{Memory, Text};
use murphi_ast::token::{Span, Token};
use sqlite_items::Items;
use std::alloc::Global;

/// The title that stands at an index, if one does, and the index behind it.
#[tactic(auto, using(crate::proofs::ItemArms::title_arms))]
fn title(alloc: Global, tokens: &[Token], at: usize) -> Result<(Option<Text>, usize), Memory>
    requires { at ≤ length tokens.now }
    ensures is { IfOk result (λ x. IsTitle tokens.now at x.0 x.1) }
    ensures within { IfOk result (λ x. x.1 ≤ length tokens.now) }
    ensures goes { IfOk result (λ x. at ≤ x.1) }
{
    match token_at(tokens, at) {
        None => Ok((None, at)),
        Some(token) => match terminal_of(token) {
            Terminal::Quoted => {
                let text = token.text.copy(alloc)?;
                Ok((Some(text), at + 1))
            }
            _ => Ok((None, at)),
        },
    }
}

/// Whether the symbol at an index ends a rule.
fn ends_rule(tokens: &[Token], at: usize) -> bool
    requires { at ≤ length tokens.now }
    ensures is { result ≡ ends_rule (head (drop at tokens.now)) }
    ensures within { IsTrue result → at < length tokens.now }
{
    match terminal_at(tokens, at) {
        Terminal::End => true,
        Terminal::EndRule => true,
        _ => false,
    }
}

/// Whether the symbol at an index ends a start state.
fn ends_start(tokens: &[Token], at: usize) -> bool
    requires { at ≤ length tokens.now }
    ensures is { result ≡ ends_start (head (drop at tokens.now)) }
    ensures within { IsTrue result → at < length tokens.now }
{
    match terminal_at(tokens, at) {
        Terminal::End => true,
        Terminal::EndStartState => true,
        _ => false,
    }
}

/// Behind the guard of a rule.
#[tactic(auto, using(crate::proofs::ItemArms::item_arms))]
fn guarded(
    alloc: Global,
    tokens: &[Token],
    at: usize,
    string: Option<Text>,
    place: Span,
    guard: Expr,
) -> Result<ReadOf<RuleDecl>, Memory>
    requires { at ≤ length tokens.now }
    ensures is { IfOk result (λ a. IsGuarded tokens.now string place guard at a) }
    ensures within { IfOk result (λ a. reached at a ≤ length tokens.now) }
    ensures goes { IfOk result (λ a. at ≤ reached at a) }
{
    match terminal_at(tokens, at) {
        Terminal::Then => match stmts(alloc, tokens, at + 1, 1)? {
            ReadOf::Stop(stop) => Ok(ReadOf::Stop(stop)),
            ReadOf::Got { tree: body, next } => {
                if !ends_rule(tokens, next) {
                    return Ok(ReadOf::Stop(place_at(tokens, next)));
                }
                Ok(ReadOf::Got {
                    tree: RuleDecl::Rule {
                        title: string,
                        guard: Some(guard),
                        locals: Items::new(alloc),
                        body,
                        at: place,
                    },
                    next: next + 1,
                })
            }
        },
        _ => Ok(ReadOf::Stop(place_at(tokens, at))),
    }
}

/// Behind the word `rule` that stands at a place.
#[tactic(auto, using(crate::proofs::ItemArms::item_arms))]
fn rule(alloc: Global, tokens: &[Token], at: usize, place: Span) -> Result<ReadOf<RuleDecl>, Memory>
    requires { at ≤ length tokens.now }
    ensures is { IfOk result (λ a. IsItem t.Rule tokens.now place at a) }
    ensures within { IfOk result (λ a. reached at a ≤ length tokens.now) }
    ensures goes { IfOk result (λ a. at ≤ reached at a) }
{
    let (string, next) = title(alloc, tokens, at)?;
    match implication(alloc, tokens, next, 1)? {
        ExprRead::Stop(stop) => Ok(ReadOf::Stop(stop)),
        ExprRead::Got { tree, next } => {
            let answer = guarded(alloc, tokens, next, string, place, tree)?;
            Ok(answer)
        }
    }
}

/// Behind the word `startstate` that stands at a place.
#[tactic(auto, using(crate::proofs::ItemArms::item_arms))]
fn start(
    alloc: Global,
    tokens: &[Token],
    at: usize,
    place: Span,
) -> Result<ReadOf<RuleDecl>, Memory>
    requires { at ≤ length tokens.now }
    ensures is { IfOk result (λ a. IsItem t.StartState tokens.now place at a) }
    ensures within { IfOk result (λ a. reached at a ≤ length tokens.now) }
    ensures goes { IfOk result (λ a. at ≤ reached at a) }
{
    let (string, next) = title(alloc, tokens, at)?;
    match stmts(alloc, tokens, next, 1)? {
        ReadOf::Stop(stop) => Ok(ReadOf::Stop(stop)),
        ReadOf::Got { tree: body, next } => {
            if !ends_start(tokens, next) {
                return Ok(ReadOf::Stop(place_at(tokens, next)));
            }
            Ok(ReadOf::Got {
                tree: RuleDecl::Start {
                    title: string,
                    locals: Items::new(alloc),
                    body,
                    at: place,
                },
                next: next + 1,
            })
        }
    }
}

/// Behind the word `invariant` that stands at a place.
#[tactic(auto, using(crate::proofs::ItemArms::item_arms))]
fn invariant(
    alloc: Global,
    tokens: &[Token],
    at: usize,
    place: Span,
) -> Result<ReadOf<RuleDecl>, Memory>
    requires { at ≤ length tokens.now }
    ensures is { IfOk result (λ a. IsItem t.Invariant tokens.now place at a) }
    ensures within { IfOk result (λ a. reached at a ≤ length tokens.now) }
    ensures goes { IfOk result (λ a. at ≤ reached at a) }
{
    let (string, next) = title(alloc, tokens, at)?;
    match implication(alloc, tokens, next, 1)? {
        ExprRead::Stop(stop) => Ok(ReadOf::Stop(stop)),
        ExprRead::Got { tree, next } => Ok(ReadOf::Got {
            tree: RuleDecl::Invariant {
                title: string,
                body: tree,
                at: place,
            },
            next,
        }),
    }
}

/// Adds the item that was read.
fn take_item(
    tokens: &[Token],
    out: &mut Items<RuleDecl>,
    read: ReadOf<RuleDecl>,
    at: usize,
) -> Result<Step, Memory>
    requires from { at ≤ reached at read }
    requires to { reached at read ≤ length tokens.now }
    ensures is { IfOk result (λ s. TakesOne tokens.now read out.old out.new s) }
    ensures within { IfOk result (λ s. step_reached at s ≤ length tokens.now) }
    ensures goes { IfOk result (λ s. at ≤ step_reached at s) }
{
    match read {
        ReadOf::Stop(place) => Ok(Step::Stop(place)),
        ReadOf::Got { tree, next } => {
            out.push(tree)?;
            let step = behind_one(tokens, next);
            Ok(step)
        }
    }
}

/// One step of reading items.
#[tactic(auto, using(crate::proofs::ItemArms::item_arms))]
fn item_step(
    alloc: Global,
    tokens: &[Token],
    at: usize,
    out: &mut Items<RuleDecl>,
) -> Result<Step, Memory>
    requires { at ≤ length tokens.now }
    ensures is { IfOk result (λ s. ItemStep tokens.now at out.old out.new s) }
    ensures within { IfOk result (λ s. step_reached at s ≤ length tokens.now) }
    ensures goes { IfOk result (λ s. IsFurther at s) }
{
    match token_at(tokens, at) {
        None => Ok(Step::End(at)),
        Some(token) => match terminal_of(token) {
            Terminal::Semicolon => Ok(Step::More(at + 1)),
            Terminal::Rule => {
                let read = rule(alloc, tokens, at + 1, token.at)?;
                let step = take_item(tokens, out, read, at + 1)?;
                Ok(step)
            }
            Terminal::StartState => {
                let read = start(alloc, tokens, at + 1, token.at)?;
                let step = take_item(tokens, out, read, at + 1)?;
                Ok(step)
            }
            Terminal::Invariant => {
                let read = invariant(alloc, tokens, at + 1, token.at)?;
                let step = take_item(tokens, out, read, at + 1)?;
                Ok(step)
            }
            _ => Ok(Step::End(at)),
        },
    }
}

/// Items with semicolons between them.
#[tactic(auto, using(crate::proofs::ItemArms::item_arms))]
pub fn items(alloc: Global, tokens: &[Token], at: usize) -> Result<ReadOf<Items<RuleDecl>>, Memory>
    requires { at ≤ length tokens.now }
    ensures is { IfOk result (λ a. AreItems tokens.now at a) }
    ensures within { IfOk result (λ a. reached at a ≤ length tokens.now) }
    ensures goes { IfOk result (λ a. at ≤ reached at a) }
{
    let mut out = Items::new(alloc);
    let mut here = at;
    'steps: loop {
        match item_step(alloc, tokens, here, &mut out)? {
            Step::More(next) => here = next,
            Step::End(next) => return Ok(ReadOf::Got { tree: out, next }),
            Step::Stop(place) => return Ok(ReadOf::Stop(place)),
        }
    }
}
