//! Rules, start states, invariants, and the whole protocol.
ghost use Rattle.std.specs.Prelude.{◌≡◌, IfOk};

use crate::decl::{Decl, copy_decls};
use crate::expr::{Bind, Expr};
use crate::stmt::{Stmt, copy_stmts, copy_value};
use crate::text::{Memory, Text};
use crate::token::Span;
use sqlite_items::Items;
use std::alloc::Global;

/// An item of a protocol. `at` is the place of its first word.
#[derive(Drop)]
pub enum RuleDecl {
    Rule {
        title: Option<Text>,
        guard: Option<Expr>,
        locals: Items<Decl>,
        body: Items<Stmt>,
        at: Span,
    },
    Start {
        title: Option<Text>,
        locals: Items<Decl>,
        body: Items<Stmt>,
        at: Span,
    },
    Invariant {
        title: Option<Text>,
        body: Expr,
        at: Span,
    },
    Group {
        binds: Items<Bind>,
        items: Items<RuleDecl>,
        at: Span,
    },
}

/// A protocol as it is written: declarations, then items.
#[derive(Drop)]
pub struct Protocol {
    pub decls: Items<Decl>,
    pub rules: Items<RuleDecl>,
}

impl RuleDecl {
    /// An item equal to this one.
    #[cycle(copy_rule)]
    pub fn copy(&self, alloc: Global) -> Result<RuleDecl, Memory>
        ensures { IfOk result (λ r. r ≡ self.now) }
    {
        match self {
            RuleDecl::Rule {
                title,
                guard,
                locals,
                body,
                at,
            } => {
                let title = copy_title(alloc, title)?;
                let guard = copy_value(alloc, guard)?;
                let locals = copy_decls(alloc, locals.as_slice())?;
                let body = copy_stmts(alloc, body.as_slice())?;
                Ok(RuleDecl::Rule {
                    title,
                    guard,
                    locals,
                    body,
                    at: *at,
                })
            }
            RuleDecl::Start {
                title,
                locals,
                body,
                at,
            } => {
                let title = copy_title(alloc, title)?;
                let locals = copy_decls(alloc, locals.as_slice())?;
                let body = copy_stmts(alloc, body.as_slice())?;
                Ok(RuleDecl::Start {
                    title,
                    locals,
                    body,
                    at: *at,
                })
            }
            RuleDecl::Invariant { title, body, at } => {
                let title = copy_title(alloc, title)?;
                let body = body.copy(alloc)?;
                Ok(RuleDecl::Invariant {
                    title,
                    body,
                    at: *at,
                })
            }
            RuleDecl::Group { binds, items, at } => {
                let binds = copy_binds(alloc, binds.as_slice())?;
                let items = copy_rules(alloc, items.as_slice())?;
                Ok(RuleDecl::Group {
                    binds,
                    items,
                    at: *at,
                })
            }
        }
    }
}

fn copy_title(alloc: Global, title: &Option<Text>) -> Result<Option<Text>, Memory>
    ensures { IfOk result (λ t. t ≡ title.now) }
{
    match title {
        None => Ok(None),
        Some(title) => {
            let title = title.copy(alloc)?;
            Ok(Some(title))
        }
    }
}

fn copy_binds(alloc: Global, all: &[Bind]) -> Result<Items<Bind>, Memory>
    ensures { IfOk result (λ out. out ≡ all.now) }
{
    let mut out = Items::new(alloc);
    for one in all {
        let copied = one.copy(alloc)?;
        out.push(copied)?;
    }
    Ok(out)
}

/// Items equal to these.
#[cycle(copy_rule)]
pub fn copy_rules(alloc: Global, all: &[RuleDecl]) -> Result<Items<RuleDecl>, Memory>
    ensures { IfOk result (λ out. out ≡ all.now) }
{
    let mut out = Items::new(alloc);
    for one in all {
        let copied = one.copy(alloc)?;
        out.push(copied)?;
    }
    Ok(out)
}

impl Protocol {
    /// A protocol equal to this one.
    pub fn copy(&self, alloc: Global) -> Result<Protocol, Memory>
        ensures { IfOk result (λ p. p ≡ self.now) }
    {
        let decls = copy_decls(alloc, self.decls.as_slice())?;
        let rules = copy_rules(alloc, self.rules.as_slice())?;
        Ok(Protocol { decls, rules })
    }
}
