//! The walk over whole texts, and what it finds.
#![tactic(auto, using(crate::proofs::WholeEquations::wholes))]

ghost use Rattle.std.specs.Prelude.{◌≡◌, None, IfOk};
ghost use Rattle.murphi_types.specs.Faults.{first_fault};
ghost use Rattle.murphi_types.specs.Written.{text_repeats};
ghost use Rattle.murphi_types.specs.TextUses.{is_node_type, text_uses};
ghost use Rattle.type_names.specs.Wholes.{of_body, of_routine, of_decl, list_decls, of_item, list_items, local_fault, list_local_faults, gathered, first_repeat};

use crate::expressions::{walk, walk_type};
use crate::gathered::{Gathered, add_fault, add_name, add_names, nothing_gathered};
use crate::scope::no_names;
use crate::statements::{walk_option, walk_stmts};
use crate::wholes::{
    declare_locals, hidden_in_binds, hidden_in_formals, hidden_in_locals, scope_of, walk_binds,
    walk_formals, walk_locals, walk_result,
};
use murphi_ast::decl::{Decl, Routine};
use murphi_ast::expr::TypeExpr;
use murphi_ast::rule::{Protocol, RuleDecl};
use murphi_ast::text::{Memory, Text};
use murphi_ast::token::Span;
use murphi_types::fault::Fault;
use sqlite_items::Items;
use std::alloc::Global;
use type_parts::faults::sooner;

/// The result, the locals and the body of a routine.
fn walk_body(
    one: &Routine,
    alloc: Global,
    name: &Text,
    hidden: bool,
    so_far: Gathered,
) -> Result<Gathered, Memory>
    ensures { IfOk result (λ g. g ≡ of_body name.now hidden one.now so_far) }
{
    let g = walk_result(&one.result, alloc, name, hidden, so_far)?;
    let g = walk_locals(one.locals.as_slice(), alloc, name, hidden, g)?;
    let inside = hidden_in_locals(one.locals.as_slice(), name, hidden);
    let g = walk_stmts(one.body.as_slice(), alloc, name, inside, g)?;
    Ok(g)
}

fn walk_routine(
    one: &Routine,
    alloc: Global,
    name: &Text,
    hidden: bool,
    so_far: Gathered,
) -> Result<Gathered, Memory>
    ensures { IfOk result (λ g. g ≡ of_routine name.now hidden one.now so_far) }
{
    let g = add_name(&one.name, alloc, so_far)?;
    let scope = scope_of(one, alloc)?;
    let g = add_fault(scope.fault, g);
    let g = walk_formals(one.formals.as_slice(), alloc, name, hidden, g)?;
    let inside = hidden_in_formals(one.formals.as_slice(), name, hidden);
    let g = walk_body(one, alloc, name, inside, g)?;
    Ok(g)
}

fn walk_decl(
    one: &Decl,
    alloc: Global,
    name: &Text,
    hidden: bool,
    so_far: Gathered,
) -> Result<Gathered, Memory>
    ensures { IfOk result (λ g. g ≡ of_decl name.now hidden one.now so_far) }
{
    match one {
        Decl::Constant { name: own, value } => {
            let g = add_name(own, alloc, so_far)?;
            let g = walk(value, alloc, name, hidden, g)?;
            Ok(g)
        }
        Decl::TypeName { name: own, body } => {
            let g = add_name(own, alloc, so_far)?;
            let g = walk_type(body, alloc, name, hidden, g)?;
            Ok(g)
        }
        Decl::Variables { names, body } => {
            let g = add_names(names.as_slice(), alloc, so_far)?;
            let g = walk_type(body, alloc, name, hidden, g)?;
            Ok(g)
        }
        Decl::Routine(routine) => {
            let g = walk_routine(routine, alloc, name, hidden, so_far)?;
            Ok(g)
        }
    }
}

/// Whether a declaration is that of the node type of this name.
pub fn is_node_type(one: &Decl, node: &Text) -> bool
    ensures { result ≡ is_node_type node.now one.now }
{
    match one {
        Decl::TypeName { name, body } => {
            match body {
                TypeExpr::Scalarset { .. } => name.name.bytes() == node.bytes(),
                _ => false,
            }
        }
        _ => false,
    }
}

fn walk_decls(
    all: &[Decl],
    alloc: Global,
    node: &Text,
    name: &Text,
    so_far: Gathered,
) -> Result<Gathered, Memory>
    ensures { IfOk result (λ g. g ≡ list_decls node.now name.now all.now so_far) }
{
    let mut g = so_far;
    for one in all {
        g = walk_decl(one, alloc, name, is_node_type(one, node), g)?;
    }
    Ok(g)
}

/// An item.
#[cycle(items)]
fn walk_item(
    one: &RuleDecl,
    alloc: Global,
    name: &Text,
    hidden: bool,
    so_far: Gathered,
) -> Result<Gathered, Memory>
    ensures { IfOk result (λ g. g ≡ of_item name.now hidden one.now so_far) }
{
    match one {
        RuleDecl::Rule {
            guard,
            locals,
            body,
            ..
        } => {
            let g = walk_option(guard, alloc, name, hidden, so_far)?;
            let g = walk_locals(locals.as_slice(), alloc, name, hidden, g)?;
            let inside = hidden_in_locals(locals.as_slice(), name, hidden);
            let g = walk_stmts(body.as_slice(), alloc, name, inside, g)?;
            Ok(g)
        }
        RuleDecl::Start { locals, body, .. } => {
            let g = walk_locals(locals.as_slice(), alloc, name, hidden, so_far)?;
            let inside = hidden_in_locals(locals.as_slice(), name, hidden);
            let g = walk_stmts(body.as_slice(), alloc, name, inside, g)?;
            Ok(g)
        }
        RuleDecl::Invariant { body, .. } => {
            let g = walk(body, alloc, name, hidden, so_far)?;
            Ok(g)
        }
        RuleDecl::Group { binds, items, .. } => {
            let g = walk_binds(binds.as_slice(), alloc, name, hidden, so_far)?;
            let inside = hidden_in_binds(binds.as_slice(), name, hidden);
            let g = walk_items(items.as_slice(), alloc, name, inside, g)?;
            Ok(g)
        }
    }
}

#[cycle(items)]
fn walk_items(
    all: &[RuleDecl],
    alloc: Global,
    name: &Text,
    hidden: bool,
    so_far: Gathered,
) -> Result<Gathered, Memory>
    ensures { IfOk result (λ g. g ≡ list_items name.now hidden all.now so_far) }
{
    let mut g = so_far;
    for one in all {
        g = walk_item(one, alloc, name, hidden, g)?;
    }
    Ok(g)
}

/// The first fault of the locals of rules and start states.
#[cycle(locals)]
fn local_fault(one: &RuleDecl, alloc: Global) -> Result<Option<Fault>, Memory>
    ensures { IfOk result (λ f. f ≡ local_fault one.now) }
{
    match one {
        RuleDecl::Rule { locals, .. } => {
            let scope = declare_locals(locals.as_slice(), alloc, no_names(alloc))?;
            Ok(scope.fault)
        }
        RuleDecl::Start { locals, .. } => {
            let scope = declare_locals(locals.as_slice(), alloc, no_names(alloc))?;
            Ok(scope.fault)
        }
        RuleDecl::Invariant { .. } => Ok(None),
        RuleDecl::Group { items, .. } => {
            let fault = local_faults(items.as_slice(), alloc)?;
            Ok(fault)
        }
    }
}

#[cycle(locals)]
fn local_faults(all: &[RuleDecl], alloc: Global) -> Result<Option<Fault>, Memory>
    ensures { IfOk result (λ f. f ≡ list_local_faults all.now None) }
{
    let mut fault = None;
    for one in all {
        let more = local_fault(one, alloc)?;
        fault = sooner(fault, more);
    }
    Ok(fault)
}

fn gather(tree: &Protocol, alloc: Global, node: &Text, name: &Text) -> Result<Gathered, Memory>
    ensures { IfOk result (λ g. g ≡ gathered node.now name.now tree.now) }
{
    let g = walk_decls(
        tree.decls.as_slice(),
        alloc,
        node,
        name,
        nothing_gathered(alloc),
    )?;
    let g = walk_items(tree.rules.as_slice(), alloc, name, false, g)?;
    Ok(g)
}

/// The first name that a text declares twice in one scope.
pub fn text_repeats(tree: &Protocol, alloc: Global) -> Result<Option<Fault>, Memory>
    ensures { IfOk result (λ f. f ≡ first_fault (text_repeats tree.now.decls tree.now.rules)) }
{
    let none = Text::make(alloc, &[])?;
    let g = gather(tree, alloc, &none, &none)?;
    let locals = local_faults(tree.rules.as_slice(), alloc)?;
    let rest = sooner(g.fault, locals);
    Ok(sooner(g.global.fault, rest))
}

/// The places where a global name is used in a text whose node type has this name, in text order.
pub fn text_uses(
    tree: &Protocol,
    alloc: Global,
    node: &Text,
    name: &Text,
) -> Result<Items<Span>, Memory>
    ensures { IfOk result (λ v. v ≡ text_uses node.now name.now tree.now) }
{
    let g = gather(tree, alloc, node, name)?;
    let Gathered { uses, .. } = g;
    Ok(uses)
}
