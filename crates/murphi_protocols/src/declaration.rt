//! Declarations: constants, types and variables.
ghost use Rattle.std.specs.Prelude.{◌≡◌, ◌≤◌, length};
ghost use Rattle.murphi_grammar.specs.Names as n;
ghost use Rattle.murphi_grammar.specs.Values as v;
ghost use Rattle.murphi_expressions.specs.Says.{Says, Gives, Goes, Stays};
ghost use Rattle.murphi_protocols.specs.Parts.{constant_form, type_name_form, variables_form};

use crate::begins::begins_declaration;
use crate::list::append;
use murphi_ast::decl::Decl;
use murphi_ast::token::Token;
use murphi_expressions::names::names;
use murphi_expressions::reader::{expr, type_form};
use murphi_expressions::step::{Stop, expect, is_at, name, push};
use murphi_grammar::symbol::Symbol;
use sqlite_items::Items;
use std::alloc::Global;

/// `const`, `type` or `var`, with what it declares.
#[tactic(auto, using(crate::proofs::DeclArms::declare_arms))]
pub fn declare(
    alloc: Global,
    tokens: &[Token],
    at: usize,
    room: u32,
) -> Result<(Items<Decl>, usize), Stop>
    requires { at ≤ length tokens.now }
    ensures is { Says n.Declare room tokens.now at result }
    ensures goes { Goes at tokens.now result }
{
    if is_at(tokens, at, Symbol::Const) {
        let (decls, end) = constants(alloc, tokens, at + 1, room)?;
        return Ok((decls, end));
    }
    if is_at(tokens, at, Symbol::Type) {
        let (decls, end) = type_names(alloc, tokens, at + 1, room)?;
        return Ok((decls, end));
    }
    let next = expect(tokens, at, Symbol::Var)?;
    let (decls, end) = variable_lists(alloc, tokens, next, room)?;
    Ok((decls, end))
}

/// Any number of constants.
#[tactic(auto, using(crate::proofs::DeclLoops::constants_arms))]
fn constants(
    alloc: Global,
    tokens: &[Token],
    at: usize,
    room: u32,
) -> Result<(Items<Decl>, usize), Stop>
    requires { at ≤ length tokens.now }
    ensures is { Says (n.Cut n.Constants) room tokens.now at result }
    ensures goes { Stays at tokens.now result }
{
    let mut decls = Items::new(alloc);
    let mut next = at;
    while is_at(tokens, next, Symbol::Name) {
        let (one, behind) = constant(alloc, tokens, next, room)?;
        push(&mut decls, one)?;
        next = behind;
    }
    Ok((decls, next))
}

/// `name : expr ;`
#[tactic(auto, using(crate::proofs::DeclArms::constant_arms))]
fn constant(alloc: Global, tokens: &[Token], at: usize, room: u32) -> Result<(Decl, usize), Stop>
    requires { at ≤ length tokens.now }
    ensures is { Gives constant_form v.constant room tokens.now at result }
    ensures goes { Goes at tokens.now result }
{
    let (name, next) = name(alloc, tokens, at)?;
    let behind = expect(tokens, next, Symbol::Colon)?;
    let (value, last) = expr(alloc, tokens, behind, room)?;
    let end = expect(tokens, last, Symbol::Semicolon)?;
    Ok((Decl::Constant { name, value }, end))
}

/// Any number of names of types.
#[tactic(auto, using(crate::proofs::DeclLoops::type_names_arms))]
fn type_names(
    alloc: Global,
    tokens: &[Token],
    at: usize,
    room: u32,
) -> Result<(Items<Decl>, usize), Stop>
    requires { at ≤ length tokens.now }
    ensures is { Says (n.Cut n.TypeNames) room tokens.now at result }
    ensures goes { Stays at tokens.now result }
{
    let mut decls = Items::new(alloc);
    let mut next = at;
    while is_at(tokens, next, Symbol::Name) {
        let (one, behind) = type_name(alloc, tokens, next, room)?;
        push(&mut decls, one)?;
        next = behind;
    }
    Ok((decls, next))
}

/// `name : type ;`
#[tactic(auto, using(crate::proofs::DeclArms::type_name_arms))]
fn type_name(alloc: Global, tokens: &[Token], at: usize, room: u32) -> Result<(Decl, usize), Stop>
    requires { at ≤ length tokens.now }
    ensures is { Gives type_name_form v.type_name room tokens.now at result }
    ensures goes { Goes at tokens.now result }
{
    let (name, next) = name(alloc, tokens, at)?;
    let behind = expect(tokens, next, Symbol::Colon)?;
    let (body, last) = type_form(alloc, tokens, behind, room)?;
    let end = expect(tokens, last, Symbol::Semicolon)?;
    Ok((Decl::TypeName { name, body }, end))
}

/// Any number of lists of variables.
#[tactic(auto, using(crate::proofs::DeclLoops::variable_lists_arms))]
fn variable_lists(
    alloc: Global,
    tokens: &[Token],
    at: usize,
    room: u32,
) -> Result<(Items<Decl>, usize), Stop>
    requires { at ≤ length tokens.now }
    ensures is { Says (n.Cut n.VariableLists) room tokens.now at result }
    ensures goes { Stays at tokens.now result }
{
    let mut decls = Items::new(alloc);
    let mut next = at;
    while is_at(tokens, next, Symbol::Name) {
        let (one, behind) = variables(alloc, tokens, next, room)?;
        push(&mut decls, one)?;
        next = behind;
    }
    Ok((decls, next))
}

/// `names : type ;`
#[tactic(auto, using(crate::proofs::DeclArms::variables_arms))]
fn variables(alloc: Global, tokens: &[Token], at: usize, room: u32) -> Result<(Decl, usize), Stop>
    requires { at ≤ length tokens.now }
    ensures is { Gives variables_form v.variables room tokens.now at result }
    ensures goes { Goes at tokens.now result }
{
    let (names, next) = names(alloc, tokens, at)?;
    let behind = expect(tokens, next, Symbol::Colon)?;
    let (body, last) = type_form(alloc, tokens, behind, room)?;
    let end = expect(tokens, last, Symbol::Semicolon)?;
    Ok((Decl::Variables { names, body }, end))
}

/// Any number of declarations.
#[tactic(auto, using(crate::proofs::DeclLoops::locals_arms))]
pub fn locals(
    alloc: Global,
    tokens: &[Token],
    at: usize,
    room: u32,
) -> Result<(Items<Decl>, usize), Stop>
    requires { at ≤ length tokens.now }
    ensures is { Says (n.Cut n.Locals) room tokens.now at result }
    ensures goes { Stays at tokens.now result }
{
    let mut decls = Items::new(alloc);
    let mut next = at;
    while begins_declaration(tokens, next) {
        let (more, behind) = declare(alloc, tokens, next, room)?;
        append(&mut decls, more)?;
        next = behind;
    }
    Ok((decls, next))
}
