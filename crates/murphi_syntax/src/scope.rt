//! What the grammar does not say of a flat protocol: one start state, each variable declared once,
//! and each name that is used declared.
ghost use Rattle.std.specs.Prelude.{◌≡◌, ◌++◌, true, IfOk, OnOk, count_by};
ghost use Rattle.std.specs.List.{list_all};
ghost use Rattle.std.specs.Option.{option_map_or};
ghost use Rattle.murphi_ast.specs.Title.{StartKind, is_of};
ghost use Rattle.murphi_ast.specs.Flat.{is_among, all_distinct, knows, stmt_knows, item_knows};
ghost use Rattle.murphi_syntax.specs.Scope.{named_by, named_in, names_of, links_know, is_plain};

use murphi_ast::decl::Decl;
use murphi_ast::expr::{Designator, Expr, Link, Named, copy_names};
use murphi_ast::rule::RuleDecl;
use murphi_ast::stmt::Stmt;
use murphi_ast::text::Memory;
use sqlite_items::Items;
use std::alloc::Global;

/// Adds the names of one declaration.
fn add_names(alloc: Global, out: &mut Items<Named>, decl: &Decl) -> Result<(), Memory>
    ensures { OnOk result (out.new ≡ out.old ++ named_by decl.now) }
{
    match decl {
        Decl::Variables { names, .. } => {
            let more = copy_names(alloc, names.as_slice())?;
            out.append(more)?;
            Ok(())
        }
        Decl::Constant { .. } | Decl::TypeName { .. } | Decl::Routine(_) => Ok(()),
    }
}

/// The names that declarations declare, in order.
pub fn declared_names(alloc: Global, decls: &[Decl]) -> Result<Items<Named>, Memory>
    ensures { IfOk result (λ ns. ns ≡ named_in decls.now) }
{
    let mut out = Items::new(alloc);
    for decl in decls {
        add_names(alloc, &mut out, decl)?;
    }
    Ok(out)
}

/// Whether a name is one of these.
fn is_among(names: &[Named], name: &[u8]) -> bool
    ensures { result ≡ is_among (names_of names.now) name.now }
{
    for one in names {
        if one.name.bytes() == name {
            return true;
        }
    }
    false
}

/// Whether no name stands twice.
pub fn all_distinct(names: &[Named]) -> bool
    ensures { result ≡ all_distinct (names_of names.now) }
{
    let mut rest = names;
    while let [first, behind @ ..] = rest {
        if is_among(behind, first.name.bytes()) {
            return false;
        }
        rest = behind;
    }
    true
}

/// Whether a designator is a plain name, without fields and indices.
fn is_plain(place: &Designator) -> bool
    ensures { result ≡ is_plain place.now.selectors }
{
    place.selectors.is_empty()
}

/// Whether each name in an expression is one of these.
#[cycle(knows)]
#[tactic(auto, using(crate::proofs::ScopeLemmas::steps))]
fn knows(names: &[Named], e: &Expr) -> bool
    ensures { result ≡ knows (names_of names.now) e.now }
{
    match e {
        Expr::Truth { .. } => true,
        Expr::Place(place) => {
            if is_plain(place) {
                is_among(names, place.root.name.bytes())
            } else {
                false
            }
        }
        Expr::Not { body, .. } => knows(names, body.get()),
        Expr::Compare { left, right, .. } => {
            if !knows(names, left.get()) {
                return false;
            }
            knows(names, right.get())
        }
        Expr::Implies { left, right } => {
            if !knows(names, left.get()) {
                return false;
            }
            knows(names, right.get())
        }
        Expr::Chain { first, rest } => {
            if !knows(names, first.get()) {
                return false;
            }
            links_know(names, rest.as_slice())
        }
        Expr::Number { .. }
        | Expr::Call { .. }
        | Expr::Minus { .. }
        | Expr::Choice { .. }
        | Expr::Quantified { .. }
        | Expr::IsUndefined { .. } => false,
    }
}

/// The same of the further operands of a chain.
#[cycle(knows)]
#[tactic(auto, using(crate::proofs::ScopeLemmas::steps))]
fn links_know(names: &[Named], links: &[Link]) -> bool
    ensures { result ≡ links_know (names_of names.now) links.now }
{
    for link in links {
        if !knows(names, &link.operand) {
            return false;
        }
    }
    true
}

/// The same of a statement.
fn stmt_knows(names: &[Named], stmt: &Stmt) -> bool
    ensures { result ≡ stmt_knows (names_of names.now) stmt.now }
{
    match stmt {
        Stmt::Assign { to, value } => {
            if !is_among(names, to.root.name.bytes()) {
                return false;
            }
            knows(names, value)
        }
        _ => false,
    }
}

/// The same of a body.
fn body_knows(names: &[Named], body: &[Stmt]) -> bool
    ensures { result ≡ list_all (stmt_knows (names_of names.now)) body.now }
{
    for stmt in body {
        if !stmt_knows(names, stmt) {
            return false;
        }
    }
    true
}

/// The same of a guard, if one is written.
fn guard_knows(names: &[Named], guard: &Option<Expr>) -> bool
    ensures { result ≡ option_map_or (knows (names_of names.now)) guard.now true }
{
    match guard {
        None => true,
        Some(guard) => knows(names, guard),
    }
}

/// The same of an item.
fn item_knows(names: &[Named], item: &RuleDecl) -> bool
    ensures { result ≡ item_knows (names_of names.now) item.now }
{
    match item {
        RuleDecl::Rule { guard, body, .. } => {
            if !guard_knows(names, guard) {
                return false;
            }
            body_knows(names, body.as_slice())
        }
        RuleDecl::Start { body, .. } => body_knows(names, body.as_slice()),
        RuleDecl::Invariant { body, .. } => knows(names, body),
        RuleDecl::Group { .. } => false,
    }
}

/// Whether each name that items use is one of these.
pub fn all_know(names: &[Named], items: &[RuleDecl]) -> bool
    ensures { result ≡ list_all (item_knows (names_of names.now)) items.now }
{
    for item in items {
        if !item_knows(names, item) {
            return false;
        }
    }
    true
}

/// Whether an item is a start state.
fn is_start(item: &RuleDecl) -> bool
    ensures { result ≡ is_of StartKind item.now }
{
    match item {
        RuleDecl::Start { .. } => true,
        _ => false,
    }
}

/// How many start states there are.
pub fn count_starts(items: &[RuleDecl]) -> usize
    ensures { result ≡ count_by (is_of StartKind) items.now }
{
    let mut count = 0;
    for item in items {
        if is_start(item) {
            count += 1;
        }
    }
    count
}
