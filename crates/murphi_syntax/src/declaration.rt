//! The reader of declarations: `var`, and behind it names with the type `boolean`.
ghost use Rattle.std.specs.Prelude.{◌≡◌, ◌+◌, ◌<◌, ◌≤◌, length, drop, IfOk};
ghost use Rattle.murphi_syntax.specs.Steps.{reached, step_reached, IsBeyond, IsFurther, AreNames, NameStep, IsTyped, IsBoolean, IsClosedDecl, AreDeclared, DeclStep, AreDecls};

use crate::expr::{named, place_at, terminal_at, token_at};
use crate::step::{ReadOf, Step};
use murphi_ast::decl::Decl;
use murphi_ast::expr::{Named, TypeExpr};
use murphi_ast::terminal::{Terminal, terminal_of};
use murphi_ast::text::Memory;
use murphi_ast::token::{Span, Token};
use sqlite_items::Items;
use std::alloc::Global;

/// One step of reading names with commas between them.
#[tactic(auto, using(crate::proofs::DeclArms::decl_arms))]
fn name_step(
    alloc: Global,
    tokens: &[Token],
    at: usize,
    out: &mut Items<Named>,
) -> Result<Step, Memory>
    requires { at ≤ length tokens.now }
    ensures is { IfOk result (λ s. NameStep tokens.now at out.old out.new s) }
    ensures within { IfOk result (λ s. step_reached at s ≤ length tokens.now) }
    ensures goes { IfOk result (λ s. IsFurther at s) }
{
    match token_at(tokens, at) {
        None => Ok(Step::Stop(place_at(tokens, at))),
        Some(token) => match terminal_of(token) {
            Terminal::Name => {
                let name = named(alloc, token)?;
                out.push(name)?;
                match terminal_at(tokens, at + 1) {
                    Terminal::Comma => Ok(Step::More(at + 1 + 1)),
                    _ => Ok(Step::End(at + 1)),
                }
            }
            _ => Ok(Step::Stop(token.at)),
        },
    }
}

/// Names with commas between them.
#[tactic(auto, using(crate::proofs::DeclArms::decl_arms))]
fn names(alloc: Global, tokens: &[Token], at: usize) -> Result<ReadOf<Items<Named>>, Memory>
    requires { at ≤ length tokens.now }
    ensures is { IfOk result (λ a. AreNames tokens.now at a) }
    ensures within { IfOk result (λ a. reached at a ≤ length tokens.now) }
    ensures goes { IfOk result (λ a. at ≤ reached at a) }
{
    let mut out = Items::new(alloc);
    let mut here = at;
    'steps: loop {
        match name_step(alloc, tokens, here, &mut out)? {
            Step::More(next) => here = next,
            Step::End(next) => return Ok(ReadOf::Got { tree: out, next }),
            Step::Stop(place) => return Ok(ReadOf::Stop(place)),
        }
    }
}

/// The `;` behind names and their type, which stands at a place.
#[tactic(auto, using(crate::proofs::DeclArms::decl_arms))]
fn closed_decl(tokens: &[Token], at: usize, names: Items<Named>, place: Span) -> ReadOf<Decl>
    requires { at ≤ length tokens.now }
    ensures is { IsClosedDecl tokens.now names place at result }
    ensures within { reached at result ≤ length tokens.now }
    ensures goes { IsBeyond at result }
{
    match terminal_at(tokens, at) {
        Terminal::Semicolon => ReadOf::Got {
            tree: Decl::Variables {
                names,
                body: TypeExpr::Truth(place),
            },
            next: at + 1,
        },
        _ => ReadOf::Stop(place_at(tokens, at)),
    }
}

/// `boolean ;` behind names and a colon.
#[tactic(auto, using(crate::proofs::DeclArms::decl_arms))]
fn boolean(tokens: &[Token], at: usize, names: Items<Named>) -> ReadOf<Decl>
    requires { at ≤ length tokens.now }
    ensures is { IsBoolean tokens.now names at result }
    ensures within { reached at result ≤ length tokens.now }
    ensures goes { IsBeyond at result }
{
    match token_at(tokens, at) {
        None => ReadOf::Stop(place_at(tokens, at)),
        Some(token) => match terminal_of(token) {
            Terminal::Boolean => closed_decl(tokens, at + 1, names, token.at),
            _ => ReadOf::Stop(token.at),
        },
    }
}

/// `: boolean ;` behind names.
#[tactic(auto, using(crate::proofs::DeclArms::decl_arms))]
fn typed(tokens: &[Token], at: usize, names: Items<Named>) -> ReadOf<Decl>
    requires { at ≤ length tokens.now }
    ensures is { IsTyped tokens.now names at result }
    ensures within { reached at result ≤ length tokens.now }
    ensures goes { IsBeyond at result }
{
    match terminal_at(tokens, at) {
        Terminal::Colon => boolean(tokens, at + 1, names),
        _ => ReadOf::Stop(place_at(tokens, at)),
    }
}

/// One step of reading what stands behind the first `var`.
#[tactic(auto, using(crate::proofs::DeclArms::decl_arms))]
fn decl_step(
    alloc: Global,
    tokens: &[Token],
    at: usize,
    out: &mut Items<Decl>,
) -> Result<Step, Memory>
    requires { at ≤ length tokens.now }
    ensures is { IfOk result (λ s. DeclStep tokens.now at out.old out.new s) }
    ensures within { IfOk result (λ s. step_reached at s ≤ length tokens.now) }
    ensures goes { IfOk result (λ s. IsFurther at s) }
{
    match token_at(tokens, at) {
        None => Ok(Step::End(at)),
        Some(token) => match terminal_of(token) {
            Terminal::Var => Ok(Step::More(at + 1)),
            Terminal::Name => match names(alloc, tokens, at)? {
                ReadOf::Stop(place) => Ok(Step::Stop(place)),
                ReadOf::Got { tree, next } => match typed(tokens, next, tree) {
                    ReadOf::Stop(place) => Ok(Step::Stop(place)),
                    ReadOf::Got { tree, next } => {
                        out.push(tree)?;
                        Ok(Step::More(next))
                    }
                },
            },
            _ => Ok(Step::End(at)),
        },
    }
}

/// What stands behind the first `var`.
#[tactic(auto, using(crate::proofs::DeclArms::decl_arms))]
fn declared(alloc: Global, tokens: &[Token], at: usize) -> Result<ReadOf<Items<Decl>>, Memory>
    requires { at ≤ length tokens.now }
    ensures is { IfOk result (λ a. AreDeclared tokens.now at a) }
    ensures within { IfOk result (λ a. reached at a ≤ length tokens.now) }
    ensures goes { IfOk result (λ a. at ≤ reached at a) }
{
    let mut out = Items::new(alloc);
    let mut here = at;
    'steps: loop {
        match decl_step(alloc, tokens, here, &mut out)? {
            Step::More(next) => here = next,
            Step::End(next) => return Ok(ReadOf::Got { tree: out, next }),
            Step::Stop(place) => return Ok(ReadOf::Stop(place)),
        }
    }
}

/// The declarations of a protocol.
#[tactic(auto, using(crate::proofs::DeclArms::decl_arms))]
pub fn decls(alloc: Global, tokens: &[Token], at: usize) -> Result<ReadOf<Items<Decl>>, Memory>
    requires { at ≤ length tokens.now }
    ensures is { IfOk result (λ a. AreDecls tokens.now at a) }
    ensures within { IfOk result (λ a. reached at a ≤ length tokens.now) }
    ensures goes { IfOk result (λ a. at ≤ reached at a) }
{
    match terminal_at(tokens, at) {
        Terminal::Var => {
            let answer = declared(alloc, tokens, at + 1)?;
            Ok(answer)
        }
        _ => Ok(ReadOf::Got {
            tree: Items::new(alloc),
            next: at,
        }),
    }
}
