//! Signs between operands, and the symbols that begin a form.
ghost use Rattle.std.specs.Prelude.{◌≡◌, ◌<◌, length, drop, map, nat_eq, OnSome};
ghost use Rattle.std.specs.List.{list_any};
ghost use Rattle.grammar_core.specs.Test.{head_in};
ghost use Rattle.murphi_grammar.specs.Names as n;
ghost use Rattle.murphi_grammar.specs.Parts.{one, form};
ghost use Rattle.murphi_grammar.specs.Pieces.{cut};
ghost use Rattle.murphi_grammar.specs.Tables.{code, tables};
ghost use Rattle.murphi_expressions.specs.Says.{can_begin, IsSign, always, itself};
ghost use Rattle.murphi_expressions.specs.Levels.{IsLinkSign};

use crate::step::{is_at, is_same, token_at};
use murphi_ast::expr::{ChainOp, CompareOp};
use murphi_ast::token::Token;
use murphi_grammar::symbol::{Symbol, symbol_of};

/// A level of expressions whose forms are chains.
#[derive(Debug, Clone, Copy, PartialEq, Eq)]
pub enum Level {
    Or,
    And,
    Sum,
    Product,
}

/// What begins an expression.
const EXPRESSION: [Symbol; 10] = [
    Symbol::Exists,
    Symbol::False,
    Symbol::Forall,
    Symbol::IsUndefined,
    Symbol::True,
    Symbol::Name,
    Symbol::Number,
    Symbol::Minus,
    Symbol::Bang,
    Symbol::Open,
];

/// What begins a sum that begins with no name.
const OTHER_SUM: [Symbol; 8] = [
    Symbol::Exists,
    Symbol::False,
    Symbol::Forall,
    Symbol::IsUndefined,
    Symbol::True,
    Symbol::Number,
    Symbol::Minus,
    Symbol::Open,
];

/// What makes a name that stands where a type is to stand the first of a range.
const RANGE_TAIL: [Symbol; 9] = [
    Symbol::DotDot,
    Symbol::Plus,
    Symbol::Minus,
    Symbol::Star,
    Symbol::Slash,
    Symbol::Percent,
    Symbol::Dot,
    Symbol::Open,
    Symbol::OpenBracket,
];

/// Whether a symbol is one of these.
fn is_one_of(symbol: Symbol, symbols: &[Symbol]) -> bool
    ensures { result ≡ list_any (λ s. nat_eq (code symbol) (code s)) symbols.now }
{
    for s in symbols {
        if is_same(symbol, *s) {
            return true;
        }
    }
    false
}

/// Whether one of these symbols stands at an index.
#[tactic(auto, using(crate::proofs::SignLemmas::among_all))]
pub fn is_among(tokens: &[Token], at: usize, symbols: &[Symbol]) -> bool
    ensures { result ≡ head_in tables (map code symbols.now) (drop at tokens.now) }
{
    match token_at(tokens, at) {
        Some(token) => is_one_of(symbol_of(token), symbols),
        None => false,
    }
}

/// Whether the token at an index may begin an expression.
#[tactic(auto, unfolding(crate::specs::Says::can_begin))]
pub fn begins_expression(tokens: &[Token], at: usize) -> bool
    ensures { result ≡ can_begin (form n.Expr) tokens.now at }
{
    is_among(tokens, at, &EXPRESSION)
}

/// Whether the token at an index may begin a sum that begins with no name.
#[tactic(auto, unfolding(crate::specs::Says::can_begin))]
pub fn begins_other_sum(tokens: &[Token], at: usize) -> bool
    ensures { result ≡ can_begin (cut n.OtherSum) tokens.now at }
{
    is_among(tokens, at, &OTHER_SUM)
}

/// Whether the token at an index goes on with a range behind its first name.
#[tactic(auto, unfolding(crate::specs::Says::can_begin))]
pub fn begins_range_tail(tokens: &[Token], at: usize) -> bool
    ensures { result ≡ can_begin (cut n.RangeTail) tokens.now at }
{
    is_among(tokens, at, &RANGE_TAIL)
}

/// Whether the token at an index begins a field or an index.
#[tactic(auto, unfolding(crate::specs::Says::can_begin))]
pub fn begins_selector(tokens: &[Token], at: usize) -> bool
    ensures { result ≡ can_begin (cut n.OneSelector) tokens.now at }
{
    is_among(tokens, at, &[Symbol::Dot, Symbol::OpenBracket])
}

/// The comparison that stands at an index.
#[tactic(auto, using(crate::proofs::SignLemmas::comparing))]
pub fn compare_sign(tokens: &[Token], at: usize) -> Option<CompareOp>
    ensures is { IsSign (cut n.CompareSign) itself tokens.now at result }
    ensures within { OnSome result (at < length tokens.now) }
{
    if is_at(tokens, at, Symbol::Equal) {
        return Some(CompareOp::Equal);
    }
    if is_at(tokens, at, Symbol::NotEqual) {
        return Some(CompareOp::NotEqual);
    }
    if is_at(tokens, at, Symbol::Less) {
        return Some(CompareOp::Less);
    }
    if is_at(tokens, at, Symbol::LessEqual) {
        return Some(CompareOp::LessEqual);
    }
    if is_at(tokens, at, Symbol::Greater) {
        return Some(CompareOp::Greater);
    }
    if is_at(tokens, at, Symbol::GreaterEqual) {
        return Some(CompareOp::GreaterEqual);
    }
    None
}

/// The sign between operands of a level that stands at an index.
#[tactic(auto, using(crate::proofs::SignLemmas::linking))]
pub fn link_sign(level: Level, tokens: &[Token], at: usize) -> Option<ChainOp>
    ensures is { IsLinkSign level tokens.now at result }
    ensures within { OnSome result (at < length tokens.now) }
{
    match level {
        Level::Or => one_sign(tokens, at, Symbol::Bar, ChainOp::Or),
        Level::And => one_sign(tokens, at, Symbol::Ampersand, ChainOp::And),
        Level::Sum => sum_sign(tokens, at),
        Level::Product => product_sign(tokens, at),
    }
}

/// The operator of a sign, where it stands at an index.
#[tactic(auto, using(crate::proofs::SignLemmas::one_sign))]
fn one_sign(tokens: &[Token], at: usize, sign: Symbol, op: ChainOp) -> Option<ChainOp>
    ensures is { IsSign (one sign) (always op) tokens.now at result }
    ensures within { OnSome result (at < length tokens.now) }
{
    if is_at(tokens, at, sign) {
        return Some(op);
    }
    None
}

/// `+` or `-`
#[tactic(auto, using(crate::proofs::SignLemmas::adding))]
fn sum_sign(tokens: &[Token], at: usize) -> Option<ChainOp>
    ensures is { IsSign (cut n.SumSign) itself tokens.now at result }
    ensures within { OnSome result (at < length tokens.now) }
{
    if is_at(tokens, at, Symbol::Plus) {
        return Some(ChainOp::Add);
    }
    if is_at(tokens, at, Symbol::Minus) {
        return Some(ChainOp::Subtract);
    }
    None
}

/// `*`, `/` or `%`
#[tactic(auto, using(crate::proofs::SignLemmas::multiplying))]
fn product_sign(tokens: &[Token], at: usize) -> Option<ChainOp>
    ensures is { IsSign (cut n.ProductSign) itself tokens.now at result }
    ensures within { OnSome result (at < length tokens.now) }
{
    if is_at(tokens, at, Symbol::Star) {
        return Some(ChainOp::Times);
    }
    if is_at(tokens, at, Symbol::Slash) {
        return Some(ChainOp::Divide);
    }
    if is_at(tokens, at, Symbol::Percent) {
        return Some(ChainOp::Modulo);
    }
    None
}
