//! Whole protocols: declarations and routines, then items.
ghost use Rattle.std.specs.Prelude.{◌≡◌, ◌≤◌, Ok, length};
ghost use Rattle.murphi_grammar.specs.Names as n;
ghost use Rattle.murphi_grammar.specs.Parts.{form, ◌∥◌};
ghost use Rattle.murphi_grammar.specs.Pieces.{cut};
ghost use Rattle.murphi_expressions.specs.Says.{Says, Gives, Passes, Goes, Stays};
ghost use Rattle.murphi_protocols.specs.Parts.{decls_of};

use crate::begins::{begins_declaration, begins_declared};
use crate::declaration::declare;
use crate::item::{item, more_items};
use crate::list::{append, push_some};
use crate::routine::routine;
use murphi_ast::decl::Decl;
use murphi_ast::rule::Protocol;
use murphi_ast::token::Token;
use murphi_expressions::step::{Stop, expect, is_at, push};
use murphi_grammar::symbol::Symbol;
use sqlite_items::Items;
use std::alloc::Global;

/// Declarations behind one word, or a routine.
#[tactic(auto, using(crate::proofs::ProtocolArms::declared_arms))]
fn declared(
    alloc: Global,
    tokens: &[Token],
    at: usize,
    room: u32,
) -> Result<(Items<Decl>, usize), Stop>
    requires { at ≤ length tokens.now }
    ensures is { Gives (form n.Declare ∥ form n.Routine) decls_of room tokens.now at result }
    ensures goes { Goes at tokens.now result }
{
    if begins_declaration(tokens, at) {
        let (decls, end) = declare(alloc, tokens, at, room)?;
        return Ok((decls, end));
    }
    let (one, end) = routine(alloc, tokens, at, room)?;
    let mut decls = Items::new(alloc);
    push(&mut decls, one)?;
    Ok((decls, end))
}

/// Any number of declarations and routines.
#[tactic(auto, using(crate::proofs::ProtocolLoops::declarations_arms))]
fn declarations(
    alloc: Global,
    tokens: &[Token],
    at: usize,
    room: u32,
) -> Result<(Items<Decl>, usize), Stop>
    requires { at ≤ length tokens.now }
    ensures is { Says (n.Cut n.Declarations) room tokens.now at result }
    ensures goes { Stays at tokens.now result }
{
    let mut decls = Items::new(alloc);
    let mut next = at;
    while begins_declared(tokens, next) {
        let (more, behind) = declared(alloc, tokens, next, room)?;
        append(&mut decls, more)?;
        next = behind;
    }
    Ok((decls, next))
}

/// The index behind any number of semicolons.
#[tactic(auto, using(crate::proofs::ProtocolLoops::gaps_arms))]
fn gaps(tokens: &[Token], at: usize) -> usize
    requires { at ≤ length tokens.now }
    ensures is { Passes (cut n.Gaps) tokens.now at (Ok result) }
    ensures on { at ≤ result }
    ensures within { result ≤ length tokens.now }
{
    let mut next = at;
    while is_at(tokens, next, Symbol::Semicolon) {
        next = next + 1;
    }
    next
}

/// A protocol, and the end of the text.
#[tactic(auto, using(crate::proofs::ProtocolArms::protocol_arms))]
pub fn whole_protocol(
    alloc: Global,
    tokens: &[Token],
    at: usize,
    room: u32,
) -> Result<(Protocol, usize), Stop>
    requires { at ≤ length tokens.now }
    ensures is { Says n.Protocol room tokens.now at result }
    ensures goes { Goes at tokens.now result }
{
    let (decls, next) = declarations(alloc, tokens, at, room)?;
    let start = gaps(tokens, next);
    let (first, behind) = item(alloc, tokens, start, room)?;
    let (rules, last) = more_items(alloc, tokens, behind, room, Some(first))?;
    let end = expect(tokens, last, Symbol::EndOfText)?;
    Ok((Protocol { decls, rules }, end))
}
