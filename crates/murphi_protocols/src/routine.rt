//! Procedures and functions, and what stands in them.
ghost use Rattle.std.specs.Prelude.{◌≡◌, ◌≤◌, length};
ghost use Rattle.murphi_grammar.specs.Names as n;
ghost use Rattle.murphi_grammar.specs.Pieces.{cut};
ghost use Rattle.murphi_expressions.specs.Says.{Says, Gives, Goes, Stays};
ghost use Rattle.murphi_protocols.specs.Parts.{after, formal_rest, formal_of, procedure_form, procedure_of, function_form, function_of};

use crate::begins::{begins_formals, begins_locals};
use crate::declaration::locals;
use crate::statement::stmts;
use murphi_ast::decl::{Decl, Formal, Routine};
use murphi_ast::stmt::Stmt;
use murphi_ast::token::Token;
use murphi_expressions::names::names;
use murphi_expressions::reader::type_form;
use murphi_expressions::step::{Stop, expect, expect_end, is_at, name, open, push};
use murphi_grammar::symbol::Symbol;
use sqlite_items::Items;
use std::alloc::Global;

/// `( { declare } begin )? stmts`
#[tactic(auto, using(crate::proofs::RoutineArms::body_arms))]
pub fn body(
    alloc: Global,
    tokens: &[Token],
    at: usize,
    room: u32,
) -> Result<((Items<Decl>, Items<Stmt>), usize), Stop>
    requires { at ≤ length tokens.now }
    ensures is { Says n.Body room tokens.now at result }
    ensures goes { Stays at tokens.now result }
{
    if !begins_locals(tokens, at) {
        let (stmts, end) = stmts(alloc, tokens, at, room)?;
        return Ok(((Items::new(alloc), stmts), end));
    }
    let (locals, next) = locals(alloc, tokens, at, room)?;
    let behind = expect(tokens, next, Symbol::Begin)?;
    let (stmts, end) = stmts(alloc, tokens, behind, room)?;
    Ok(((locals, stmts), end))
}

/// `var? names : type`
#[tactic(auto, using(crate::proofs::RoutineArms::formal_arms))]
fn formal(alloc: Global, tokens: &[Token], at: usize, room: u32) -> Result<(Formal, usize), Stop>
    requires { at ≤ length tokens.now }
    ensures is { Says n.Formal room tokens.now at result }
    ensures goes { Goes at tokens.now result }
{
    if is_at(tokens, at, Symbol::Var) {
        let (formal, end) = formal_behind(alloc, tokens, at + 1, room, true)?;
        return Ok((formal, end));
    }
    let (formal, end) = formal_behind(alloc, tokens, at, room, false)?;
    Ok((formal, end))
}

/// `names : type`, with `var` before it or without.
#[tactic(auto, using(crate::proofs::RoutineArms::formal_behind_arms))]
fn formal_behind(
    alloc: Global,
    tokens: &[Token],
    at: usize,
    room: u32,
    by_place: bool,
) -> Result<(Formal, usize), Stop>
    requires { at ≤ length tokens.now }
    ensures is { Gives formal_rest (formal_of by_place) room tokens.now at result }
    ensures goes { Goes at tokens.now result }
{
    let (names, next) = names(alloc, tokens, at)?;
    let behind = expect(tokens, next, Symbol::Colon)?;
    let (body, end) = type_form(alloc, tokens, behind, room)?;
    let formal = Formal {
        by_place,
        names,
        body,
    };
    Ok((formal, end))
}

/// Formals with semicolons between them.
#[tactic(auto, using(crate::proofs::RoutineArms::formals_arms))]
fn formals(
    alloc: Global,
    tokens: &[Token],
    at: usize,
    room: u32,
) -> Result<(Items<Formal>, usize), Stop>
    requires { at ≤ length tokens.now }
    ensures is { Says n.Formals room tokens.now at result }
    ensures goes { Goes at tokens.now result }
{
    let (first, next) = formal(alloc, tokens, at, room)?;
    let mut formals = Items::new(alloc);
    push(&mut formals, first)?;
    let (formals, end) = more_formals(alloc, tokens, next, room, formals)?;
    Ok((formals, end))
}

/// Any number of `; formal` behind these.
#[tactic(auto, using(crate::proofs::RoutineLoops::more_formals_arms))]
fn more_formals(
    alloc: Global,
    tokens: &[Token],
    at: usize,
    room: u32,
    front: Items<Formal>,
) -> Result<(Items<Formal>, usize), Stop>
    requires { at ≤ length tokens.now }
    ensures is { Gives (cut n.MoreFormals) (after front) room tokens.now at result }
    ensures goes { Stays at tokens.now result }
{
    let mut formals = front;
    let mut next = at;
    while is_at(tokens, next, Symbol::Semicolon) {
        let (one, behind) = formal(alloc, tokens, next + 1, room)?;
        push(&mut formals, one)?;
        next = behind;
    }
    Ok((formals, next))
}

/// `( formals? )`
#[tactic(auto, using(crate::proofs::RoutineArms::formals_in_arms))]
fn formals_in(
    alloc: Global,
    tokens: &[Token],
    at: usize,
    room: u32,
) -> Result<(Items<Formal>, usize), Stop>
    requires { at ≤ length tokens.now }
    ensures is { Says (n.Cut n.FormalsIn) room tokens.now at result }
    ensures goes { Goes at tokens.now result }
{
    let inside = open(tokens, at, Symbol::Open, room)?;
    if !begins_formals(tokens, at + 1) {
        let end = expect(tokens, at + 1, Symbol::Close)?;
        return Ok((Items::new(alloc), end));
    }
    let (formals, next) = formals(alloc, tokens, at + 1, inside)?;
    let end = expect(tokens, next, Symbol::Close)?;
    Ok((formals, end))
}

/// A procedure or a function.
#[tactic(auto, using(crate::proofs::RoutineArms::routine_arms))]
pub fn routine(alloc: Global, tokens: &[Token], at: usize, room: u32) -> Result<(Decl, usize), Stop>
    requires { at ≤ length tokens.now }
    ensures is { Says n.Routine room tokens.now at result }
    ensures goes { Goes at tokens.now result }
{
    if is_at(tokens, at, Symbol::Procedure) {
        return procedure(alloc, tokens, at, room);
    }
    function(alloc, tokens, at, room)
}

/// `procedure name ( formals? ) ; body end ;`
#[tactic(auto, using(crate::proofs::RoutineArms::procedure_arms))]
fn procedure(alloc: Global, tokens: &[Token], at: usize, room: u32) -> Result<(Decl, usize), Stop>
    requires { at ≤ length tokens.now }
    ensures is { Gives procedure_form procedure_of room tokens.now at result }
    ensures goes { Goes at tokens.now result }
{
    let inside = open(tokens, at, Symbol::Procedure, room)?;
    let (name, next) = name(alloc, tokens, at + 1)?;
    let (formals, behind) = formals_in(alloc, tokens, next, inside)?;
    let start = expect(tokens, behind, Symbol::Semicolon)?;
    let ((locals, stmts), last) = body(alloc, tokens, start, inside)?;
    let word = expect_end(tokens, last, Symbol::EndProcedure)?;
    let end = expect(tokens, word, Symbol::Semicolon)?;
    let routine = Routine {
        name,
        formals,
        result: None,
        locals,
        body: stmts,
    };
    Ok((Decl::Routine(routine), end))
}

/// `function name ( formals? ) : type ; body end ;`
#[tactic(auto, using(crate::proofs::RoutineArms::function_arms))]
fn function(alloc: Global, tokens: &[Token], at: usize, room: u32) -> Result<(Decl, usize), Stop>
    requires { at ≤ length tokens.now }
    ensures is { Gives function_form function_of room tokens.now at result }
    ensures goes { Goes at tokens.now result }
{
    let inside = open(tokens, at, Symbol::Function, room)?;
    let (name, next) = name(alloc, tokens, at + 1)?;
    let (formals, behind) = formals_in(alloc, tokens, next, inside)?;
    let start = expect(tokens, behind, Symbol::Colon)?;
    let (gives, semicolon) = type_form(alloc, tokens, start, inside)?;
    let first = expect(tokens, semicolon, Symbol::Semicolon)?;
    let ((locals, stmts), last) = body(alloc, tokens, first, inside)?;
    let word = expect_end(tokens, last, Symbol::EndFunction)?;
    let end = expect(tokens, word, Symbol::Semicolon)?;
    let routine = Routine {
        name,
        formals,
        result: Some(gives),
        locals,
        body: stmts,
    };
    Ok((Decl::Routine(routine), end))
}
