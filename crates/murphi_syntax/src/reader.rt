//! The reader of expressions: one function a level of the grammar, each from an index of the tokens.
ghost use Rattle.std.specs.Prelude.{◌≡◌, ◌+◌, ◌<◌, ◌≤◌, length, drop, IfOk};
ghost use Rattle.murphi_ast.specs.Grammar.{Implication, Disjunction, Conjunction, Negation, Primary};
ghost use Rattle.murphi_syntax.specs.Answers.{reached, links_reached, IsExpr, IsLinks, IsChain, IsOperand, IsImplied, IsComparison, IsCompared, IsNegated, IsGroup};

use crate::expr::{
    Connective, ExprRead, GREATEST_NESTING, LinksRead, chain_of, compare, compare_sign, implies,
    is_sign, link_of, not, place_at, terminal_at, token_at, variable,
};
use murphi_ast::expr::Expr;
use murphi_ast::terminal::{Terminal, terminal_of};
use murphi_ast::text::Memory;
use murphi_ast::token::{Span, Token};
use sqlite_items::Items;
use std::alloc::Global;

/// An expression, where so many forms are open.
#[cycle(reader)]
#[tactic(auto, using(crate::proofs::ExprArms::arms))]
pub fn implication(
    alloc: Global,
    tokens: &[Token],
    at: usize,
    nesting: u32,
) -> Result<ExprRead, Memory>
    requires { at ≤ length tokens.now }
    ensures is { IfOk result (λ a. IsExpr Implication nesting tokens.now at a) }
    ensures within { IfOk result (λ a. reached at a ≤ length tokens.now) }
    ensures goes { IfOk result (λ a. at ≤ reached at a) }
{
    match chain(alloc, tokens, at, nesting, Connective::Or)? {
        ExprRead::Stop(place) => Ok(ExprRead::Stop(place)),
        ExprRead::Got { tree, next } => {
            let answer = implied(alloc, tokens, next, nesting, tree)?;
            Ok(answer)
        }
    }
}

/// Behind the left side of an implication.
#[cycle(reader)]
#[tactic(auto, using(crate::proofs::ExprArms::arms))]
fn implied(
    alloc: Global,
    tokens: &[Token],
    at: usize,
    nesting: u32,
    left: Expr,
) -> Result<ExprRead, Memory>
    requires { at ≤ length tokens.now }
    ensures is { IfOk result (λ a. IsImplied nesting tokens.now left at a) }
    ensures within { IfOk result (λ a. reached at a ≤ length tokens.now) }
    ensures goes { IfOk result (λ a. at ≤ reached at a) }
{
    match terminal_at(tokens, at) {
        Terminal::Arrow => {
            if nesting >= GREATEST_NESTING {
                return Ok(ExprRead::Stop(place_at(tokens, at)));
            }
            match chain(alloc, tokens, at + 1, nesting + 1, Connective::Or)? {
                ExprRead::Stop(place) => Ok(ExprRead::Stop(place)),
                ExprRead::Got { tree, next } => {
                    let tree = implies(alloc, left, tree)?;
                    Ok(ExprRead::Got { tree, next })
                }
            }
        }
        _ => Ok(ExprRead::Got {
            tree: left,
            next: at,
        }),
    }
}

/// Operands with signs between them.
#[cycle(reader)]
#[tactic(auto, using(crate::proofs::ExprArms::arms))]
fn chain(
    alloc: Global,
    tokens: &[Token],
    at: usize,
    nesting: u32,
    op: Connective,
) -> Result<ExprRead, Memory>
    requires { at ≤ length tokens.now }
    ensures is { IfOk result (λ a. IsChain op nesting tokens.now at a) }
    ensures within { IfOk result (λ a. reached at a ≤ length tokens.now) }
    ensures goes { IfOk result (λ a. at ≤ reached at a) }
{
    match operand(alloc, tokens, at, nesting, op)? {
        ExprRead::Stop(place) => Ok(ExprRead::Stop(place)),
        ExprRead::Got { tree: first, next } => {
            match links(alloc, tokens, next, nesting, op)? {
                LinksRead::Stop(place) => Ok(ExprRead::Stop(place)),
                LinksRead::Got { links: rest, next } => {
                    let tree = chain_of(alloc, first, rest)?;
                    Ok(ExprRead::Got { tree, next })
                }
            }
        }
    }
}

/// The further operands of a chain.
#[cycle(reader)]
#[tactic(auto, using(crate::proofs::ExprArms::arms))]
fn links(
    alloc: Global,
    tokens: &[Token],
    at: usize,
    nesting: u32,
    op: Connective,
) -> Result<LinksRead, Memory>
    requires { at ≤ length tokens.now }
    ensures is { IfOk result (λ a. IsLinks op nesting tokens.now at a) }
    ensures within { IfOk result (λ a. links_reached at a ≤ length tokens.now) }
    ensures goes { IfOk result (λ a. at ≤ links_reached at a) }
{
    let mut front = Items::new(alloc);
    let mut here = at;
    'operands: while is_sign(op, tokens, here) {
        match operand(alloc, tokens, here + 1, nesting, op)? {
            ExprRead::Stop(place) => return Ok(LinksRead::Stop(place)),
            ExprRead::Got { tree, next } => {
                front.push(link_of(op, tree))?;
                here = next;
            }
        }
    }
    Ok(LinksRead::Got {
        links: front,
        next: here,
    })
}

/// An operand of a chain.
#[cycle(reader)]
#[tactic(auto, using(crate::proofs::ExprArms::arms))]
fn operand(
    alloc: Global,
    tokens: &[Token],
    at: usize,
    nesting: u32,
    op: Connective,
) -> Result<ExprRead, Memory>
    requires { at ≤ length tokens.now }
    ensures is { IfOk result (λ a. IsOperand op nesting tokens.now at a) }
    ensures within { IfOk result (λ a. reached at a ≤ length tokens.now) }
    ensures goes { IfOk result (λ a. at ≤ reached at a) }
{
    match op {
        Connective::Or => {
            let answer = chain(alloc, tokens, at, nesting, Connective::And)?;
            Ok(answer)
        }
        Connective::And => {
            let answer = negation(alloc, tokens, at, nesting)?;
            Ok(answer)
        }
    }
}

/// A negation, or a comparison.
#[cycle(reader)]
#[tactic(auto, using(crate::proofs::ExprArms::arms))]
fn negation(alloc: Global, tokens: &[Token], at: usize, nesting: u32) -> Result<ExprRead, Memory>
    requires { at ≤ length tokens.now }
    ensures is { IfOk result (λ a. IsExpr Negation nesting tokens.now at a) }
    ensures within { IfOk result (λ a. reached at a ≤ length tokens.now) }
    ensures goes { IfOk result (λ a. at ≤ reached at a) }
{
    match token_at(tokens, at) {
        None => Ok(ExprRead::Stop(place_at(tokens, at))),
        Some(token) => match terminal_of(token) {
            Terminal::Bang => {
                let answer = negated(alloc, tokens, at + 1, nesting, token.at)?;
                Ok(answer)
            }
            _ => {
                let answer = comparison(alloc, tokens, at, nesting)?;
                Ok(answer)
            }
        },
    }
}

/// Behind a `!` that stands at a place.
#[cycle(reader)]
#[tactic(auto, using(crate::proofs::ExprArms::arms))]
fn negated(
    alloc: Global,
    tokens: &[Token],
    at: usize,
    nesting: u32,
    place: Span,
) -> Result<ExprRead, Memory>
    requires { at ≤ length tokens.now }
    ensures is { IfOk result (λ a. IsNegated nesting tokens.now place at a) }
    ensures within { IfOk result (λ a. reached at a ≤ length tokens.now) }
    ensures goes { IfOk result (λ a. at ≤ reached at a) }
{
    if nesting >= GREATEST_NESTING {
        return Ok(ExprRead::Stop(place));
    }
    match negation(alloc, tokens, at, nesting + 1)? {
        ExprRead::Stop(stop) => Ok(ExprRead::Stop(stop)),
        ExprRead::Got { tree, next } => {
            let tree = not(alloc, tree, place)?;
            Ok(ExprRead::Got { tree, next })
        }
    }
}

/// A comparison, or its left side alone.
#[cycle(reader)]
#[tactic(auto, using(crate::proofs::ExprArms::arms))]
fn comparison(alloc: Global, tokens: &[Token], at: usize, nesting: u32) -> Result<ExprRead, Memory>
    requires { at ≤ length tokens.now }
    ensures is { IfOk result (λ a. IsComparison nesting tokens.now at a) }
    ensures within { IfOk result (λ a. reached at a ≤ length tokens.now) }
    ensures goes { IfOk result (λ a. at ≤ reached at a) }
{
    match primary(alloc, tokens, at, nesting)? {
        ExprRead::Stop(place) => Ok(ExprRead::Stop(place)),
        ExprRead::Got { tree, next } => {
            let answer = compared(alloc, tokens, next, nesting, tree)?;
            Ok(answer)
        }
    }
}

/// Behind the left side of a comparison.
#[cycle(reader)]
#[tactic(auto, using(crate::proofs::ExprArms::arms))]
fn compared(
    alloc: Global,
    tokens: &[Token],
    at: usize,
    nesting: u32,
    left: Expr,
) -> Result<ExprRead, Memory>
    requires { at ≤ length tokens.now }
    ensures is { IfOk result (λ a. IsCompared nesting tokens.now left at a) }
    ensures within { IfOk result (λ a. reached at a ≤ length tokens.now) }
    ensures goes { IfOk result (λ a. at ≤ reached at a) }
{
    match compare_sign(tokens, at) {
        None => Ok(ExprRead::Got {
            tree: left,
            next: at,
        }),
        Some(op) => match primary(alloc, tokens, at + 1, nesting)? {
            ExprRead::Stop(place) => Ok(ExprRead::Stop(place)),
            ExprRead::Got { tree, next } => {
                let tree = compare(alloc, op, left, tree)?;
                Ok(ExprRead::Got { tree, next })
            }
        },
    }
}

/// A constant, a name, or an expression in parentheses.
#[cycle(reader)]
#[tactic(auto, using(crate::proofs::ExprArms::arms))]
fn primary(alloc: Global, tokens: &[Token], at: usize, nesting: u32) -> Result<ExprRead, Memory>
    requires { at ≤ length tokens.now }
    ensures is { IfOk result (λ a. IsExpr Primary nesting tokens.now at a) }
    ensures within { IfOk result (λ a. reached at a ≤ length tokens.now) }
    ensures goes { IfOk result (λ a. at ≤ reached at a) }
{
    match token_at(tokens, at) {
        None => Ok(ExprRead::Stop(place_at(tokens, at))),
        Some(token) => match terminal_of(token) {
            Terminal::True => Ok(ExprRead::Got {
                tree: Expr::Truth {
                    value: true,
                    at: token.at,
                },
                next: at + 1,
            }),
            Terminal::False => Ok(ExprRead::Got {
                tree: Expr::Truth {
                    value: false,
                    at: token.at,
                },
                next: at + 1,
            }),
            Terminal::Name => {
                let place = variable(alloc, token)?;
                Ok(ExprRead::Got {
                    tree: Expr::Place(place),
                    next: at + 1,
                })
            }
            Terminal::Open => {
                let answer = group(alloc, tokens, at + 1, nesting)?;
                Ok(answer)
            }
            _ => Ok(ExprRead::Stop(token.at)),
        },
    }
}

/// Behind an opening parenthesis.
#[cycle(reader)]
#[tactic(auto, using(crate::proofs::ExprArms::arms))]
fn group(alloc: Global, tokens: &[Token], at: usize, nesting: u32) -> Result<ExprRead, Memory>
    requires { at ≤ length tokens.now }
    ensures is { IfOk result (λ a. IsGroup nesting tokens.now at a) }
    ensures within { IfOk result (λ a. reached at a ≤ length tokens.now) }
    ensures goes { IfOk result (λ a. at ≤ reached at a) }
{
    if nesting >= GREATEST_NESTING {
        return Ok(ExprRead::Stop(place_at(tokens, at)));
    }
    match implication(alloc, tokens, at, nesting + 1)? {
        ExprRead::Stop(place) => Ok(ExprRead::Stop(place)),
        ExprRead::Got { tree, next } => match terminal_at(tokens, next) {
            Terminal::Close => Ok(ExprRead::Got {
                tree,
                next: next + 1,
            }),
            _ => Ok(ExprRead::Stop(place_at(tokens, next))),
        },
    }
}
