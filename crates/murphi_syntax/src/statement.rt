//! The reader of statements, from an index of the tokens.
ghost use Rattle.std.specs.Prelude.{◌≡◌, ◌+◌, ◌<◌, ◌≤◌, length, drop, IfOk};
ghost use Rattle.murphi_syntax.specs.Steps.{reached, step_reached, IsFurther, IsBehind, TakesOne, IsAssigned, AreStmts, StmtStep};

use crate::expr::{ExprRead, place_at, terminal_at, token_at, variable};
use crate::reader::implication;
use crate::step::{ReadOf, Step};
use murphi_ast::stmt::Stmt;
use murphi_ast::terminal::{Terminal, terminal_of};
use murphi_ast::text::Memory;
use murphi_ast::token::Token;
use sqlite_items::Items;
use std::alloc::Global;

/// Behind one of a list: over a semicolon, or at the end of the list.
pub fn behind_one(tokens: &[Token], at: usize) -> Step
    requires { at ≤ length tokens.now }
    ensures is { IsBehind tokens.now at result }
    ensures within { step_reached at result ≤ length tokens.now }
    ensures goes { at ≤ step_reached at result }
{
    match terminal_at(tokens, at) {
        Terminal::Semicolon => Step::More(at + 1),
        _ => Step::End(at),
    }
}

/// Behind the name that is assigned to.
#[tactic(auto, using(crate::proofs::ListArms::stmt_arms))]
fn assigned(
    alloc: Global,
    tokens: &[Token],
    at: usize,
    nesting: u32,
    token: &Token,
) -> Result<ReadOf<Stmt>, Memory>
    requires { at ≤ length tokens.now }
    ensures is { IfOk result (λ a. IsAssigned nesting tokens.now token.now at a) }
    ensures within { IfOk result (λ a. reached at a ≤ length tokens.now) }
    ensures goes { IfOk result (λ a. at ≤ reached at a) }
{
    match terminal_at(tokens, at) {
        Terminal::Becomes => match implication(alloc, tokens, at + 1, nesting)? {
            ExprRead::Stop(place) => Ok(ReadOf::Stop(place)),
            ExprRead::Got { tree: value, next } => {
                let to = variable(alloc, token)?;
                Ok(ReadOf::Got {
                    tree: Stmt::Assign { to, value },
                    next,
                })
            }
        },
        _ => Ok(ReadOf::Stop(place_at(tokens, at))),
    }
}

/// Adds the statement that was read.
fn take_stmt(
    tokens: &[Token],
    out: &mut Items<Stmt>,
    read: ReadOf<Stmt>,
    at: usize,
) -> Result<Step, Memory>
    requires from { at ≤ reached at read }
    requires to { reached at read ≤ length tokens.now }
    ensures is { IfOk result (λ s. TakesOne tokens.now read out.old out.new s) }
    ensures within { IfOk result (λ s. step_reached at s ≤ length tokens.now) }
    ensures goes { IfOk result (λ s. at ≤ step_reached at s) }
{
    match read {
        ReadOf::Stop(place) => Ok(Step::Stop(place)),
        ReadOf::Got { tree, next } => {
            out.push(tree)?;
            let step = behind_one(tokens, next);
            Ok(step)
        }
    }
}

/// One step of reading statements.
#[tactic(auto, using(crate::proofs::ListArms::stmt_arms))]
fn stmt_step(
    alloc: Global,
    tokens: &[Token],
    at: usize,
    nesting: u32,
    out: &mut Items<Stmt>,
) -> Result<Step, Memory>
    requires { at ≤ length tokens.now }
    ensures is { IfOk result (λ s. StmtStep nesting tokens.now at out.old out.new s) }
    ensures within { IfOk result (λ s. step_reached at s ≤ length tokens.now) }
    ensures goes { IfOk result (λ s. IsFurther at s) }
{
    match token_at(tokens, at) {
        None => Ok(Step::End(at)),
        Some(token) => match terminal_of(token) {
            Terminal::Semicolon => Ok(Step::More(at + 1)),
            Terminal::Name => {
                let read = assigned(alloc, tokens, at + 1, nesting, token)?;
                let step = take_stmt(tokens, out, read, at + 1)?;
                Ok(step)
            }
            _ => Ok(Step::End(at)),
        },
    }
}

/// Statements with semicolons between them, where so many forms are open.
#[tactic(auto, using(crate::proofs::ListArms::stmt_arms))]
pub fn stmts(
    alloc: Global,
    tokens: &[Token],
    at: usize,
    nesting: u32,
) -> Result<ReadOf<Items<Stmt>>, Memory>
    requires { at ≤ length tokens.now }
    ensures is { IfOk result (λ a. AreStmts nesting tokens.now at a) }
    ensures within { IfOk result (λ a. reached at a ≤ length tokens.now) }
    ensures goes { IfOk result (λ a. at ≤ reached at a) }
{
    let mut out = Items::new(alloc);
    let mut here = at;
    'steps: loop {
        match stmt_step(alloc, tokens, here, nesting, &mut out)? {
            Step::More(next) => here = next,
            Step::End(next) => return Ok(ReadOf::Got { tree: out, next }),
            Step::Stop(place) => return Ok(ReadOf::Stop(place)),
        }
    }
}
