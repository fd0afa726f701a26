//! Reading expressions: one function a level of the grammar, each from an index of the tokens.
ghost use Rattle.std.specs.Prelude.{◌≡◌, ◌+◌, ◌<◌, ◌≤◌, length, drop, slice_get, IfOk, OnSome, IsTrue};
ghost use Rattle.std.specs.Option.{option_copied};
ghost use Rattle.murphi_ast.specs.declared.expr.Expr.{Expr};
ghost use Rattle.murphi_ast.specs.Grammar.{Implication, Disjunction, Conjunction, Negation, Primary, named, variable};
ghost use Rattle.murphi_syntax.specs.Reading.{head, room, chain_of, link_of, compare_sign, is_sign};
ghost use Rattle.murphi_syntax.specs.Answers.{reached, links_reached, IsExpr, IsLinks, IsChain, IsOperand, IsImplied, IsComparison, IsCompared, IsNegated, IsGroup};

use murphi_ast::expr::{ChainOp, CompareOp, Designator, Expr, Link, Named};
use murphi_ast::terminal::{Terminal, terminal_of};
use murphi_ast::text::Memory;
use murphi_ast::token::{Span, Token};
use sqlite_items::{Boxed, Items};
use std::alloc::Global;

/// How many forms may be open at once.
pub const GREATEST_NESTING: u32 = 100;

/// What joins the operands of a chain.
#[derive(Debug, Clone, Copy, PartialEq, Eq)]
pub enum Connective {
    Or,
    And,
}

/// What was read, with the index behind it, or the place of a token that does not fit.
#[derive(Drop)]
pub enum ExprRead {
    Got { tree: Expr, next: usize },
    Stop(Span),
}

/// The further operands of a chain.
#[derive(Drop)]
pub enum LinksRead {
    Got { links: Items<Link>, next: usize },
    Stop(Span),
}

/// The token at an index.
pub fn token_at(tokens: &[Token], at: usize) -> Option<&Token>
    ensures value { option_copied result ≡ slice_get tokens.now at }
    ensures within { OnSome result (at < length tokens.now) }
{
    tokens.get(at)
}

/// The symbol of the token at an index; behind the last it is that of the end.
#[tactic(auto, using(crate::proofs::Places::heads))]
pub fn terminal_at(tokens: &[Token], at: usize) -> Terminal
    requires { at ≤ length tokens.now }
    ensures is { result ≡ head (drop at tokens.now) }
    ensures within { at + room result ≤ length tokens.now }
{
    match token_at(tokens, at) {
        Some(token) => terminal_of(token),
        None => Terminal::EndOfText,
    }
}

/// The place of the token at an index, or the first of a text behind the last.
pub fn place_at(tokens: &[Token], at: usize) -> Span {
    match token_at(tokens, at) {
        Some(token) => token.at,
        None => Span { line: 1, column: 1 },
    }
}

/// The name that a token writes.
pub fn named(alloc: Global, token: &Token) -> Result<Named, Memory>
    ensures { IfOk result (λ n. n ≡ named token.now) }
{
    let name = token.text.copy(alloc)?;
    Ok(Named { name, at: token.at })
}

/// The variable that a token names.
pub fn variable(alloc: Global, token: &Token) -> Result<Designator, Memory>
    ensures { IfOk result (λ d. d ≡ variable token.now) }
{
    let root = named(alloc, token)?;
    Ok(Designator {
        root,
        selectors: Items::new(alloc),
    })
}

fn boxed(alloc: Global, body: Expr) -> Result<Boxed<Expr>, Memory>
    ensures { IfOk result (λ b. b ≡ body) }
{
    let b = Boxed::new(alloc, body)?;
    Ok(b)
}

/// `left -> right`.
pub fn implies(alloc: Global, left: Expr, right: Expr) -> Result<Expr, Memory>
    ensures { IfOk result (λ e. e ≡ Expr.Implies left right) }
{
    let left = boxed(alloc, left)?;
    let right = boxed(alloc, right)?;
    Ok(Expr::Implies { left, right })
}

/// `left = right` or `left != right`.
pub fn compare(alloc: Global, op: CompareOp, left: Expr, right: Expr) -> Result<Expr, Memory>
    ensures { IfOk result (λ e. e ≡ Expr.Compare op left right) }
{
    let left = boxed(alloc, left)?;
    let right = boxed(alloc, right)?;
    Ok(Expr::Compare { op, left, right })
}

/// `! body`.
pub fn not(alloc: Global, body: Expr, at: Span) -> Result<Expr, Memory>
    ensures { IfOk result (λ e. e ≡ Expr.Not body at) }
{
    let body = boxed(alloc, body)?;
    Ok(Expr::Not { body, at })
}

/// A chain, or its one operand where no more follow.
pub fn chain_of(alloc: Global, first: Expr, rest: Items<Link>) -> Result<Expr, Memory>
    ensures { IfOk result (λ e. e ≡ chain_of first rest) }
{
    if rest.is_empty() {
        return Ok(first);
    }
    let first = boxed(alloc, first)?;
    Ok(Expr::Chain { first, rest })
}

/// One more operand of a chain.
pub fn link_of(op: Connective, operand: Expr) -> Link
    ensures { result ≡ link_of op operand }
{
    match op {
        Connective::Or => Link {
            op: ChainOp::Or,
            operand,
        },
        Connective::And => Link {
            op: ChainOp::And,
            operand,
        },
    }
}

/// The comparison that the symbol at an index stands for.
pub fn compare_sign(tokens: &[Token], at: usize) -> Option<CompareOp>
    requires { at ≤ length tokens.now }
    ensures is { result ≡ compare_sign (head (drop at tokens.now)) }
    ensures within { OnSome result (at < length tokens.now) }
{
    match terminal_at(tokens, at) {
        Terminal::Equal => Some(CompareOp::Equal),
        Terminal::NotEqual => Some(CompareOp::NotEqual),
        _ => None,
    }
}

/// Whether the symbol at an index joins the operands of a chain.
pub fn is_sign(op: Connective, tokens: &[Token], at: usize) -> bool
    requires { at ≤ length tokens.now }
    ensures is { result ≡ is_sign op (head (drop at tokens.now)) }
    ensures within { IsTrue result → at < length tokens.now }
{
    match (op, terminal_at(tokens, at)) {
        (Connective::Or, Terminal::Bar) => true,
        (Connective::And, Terminal::Ampersand) => true,
        _ => false,
    }
}
