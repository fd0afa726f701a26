//! Statements.
ghost use Rattle.std.specs.Prelude.{◌≡◌, IfOk};

use crate::expr::{Bind, Designator, Expr, Named, copy_exprs};
use crate::text::Memory;
use crate::token::Span;
use sqlite_items::Items;
use std::alloc::Global;

/// One test of an `if`, with the statements that it guards.
#[cycle(stmt)]
#[derive(Drop)]
pub struct Arm {
    pub test: Expr,
    pub body: Items<Stmt>,
}

/// One case of a `switch`.
#[cycle(stmt)]
#[derive(Drop)]
pub struct Case {
    pub labels: Items<Expr>,
    pub body: Items<Stmt>,
}

/// A statement. Empty statements leave nothing in a body.
#[cycle(stmt)]
#[derive(Drop)]
pub enum Stmt {
    Assign {
        to: Designator,
        value: Expr,
    },
    Call {
        name: Named,
        args: Items<Expr>,
    },
    If {
        arms: Items<Arm>,
        otherwise: Items<Stmt>,
        at: Span,
    },
    Switch {
        on: Expr,
        cases: Items<Case>,
        otherwise: Items<Stmt>,
        at: Span,
    },
    For {
        bind: Bind,
        body: Items<Stmt>,
        at: Span,
    },
    Clear {
        place: Designator,
        at: Span,
    },
    Undefine {
        place: Designator,
        at: Span,
    },
    Error {
        at: Span,
    },
    Assert {
        test: Expr,
        at: Span,
    },
    Put {
        value: Option<Expr>,
        at: Span,
    },
    Return {
        value: Option<Expr>,
        at: Span,
    },
}

impl Stmt {
    /// A statement equal to this one.
    #[cycle(copy_stmt)]
    pub fn copy(&self, alloc: Global) -> Result<Stmt, Memory>
        ensures { IfOk result (λ s. s ≡ self.now) }
    {
        match self {
            Stmt::Assign { to, value } => {
                let to = to.copy(alloc)?;
                let value = value.copy(alloc)?;
                Ok(Stmt::Assign { to, value })
            }
            Stmt::Call { name, args } => {
                let name = name.copy(alloc)?;
                let args = copy_exprs(alloc, args.as_slice())?;
                Ok(Stmt::Call { name, args })
            }
            Stmt::If {
                arms,
                otherwise,
                at,
            } => {
                let arms = copy_arms(alloc, arms.as_slice())?;
                let otherwise = copy_stmts(alloc, otherwise.as_slice())?;
                Ok(Stmt::If {
                    arms,
                    otherwise,
                    at: *at,
                })
            }
            Stmt::Switch {
                on,
                cases,
                otherwise,
                at,
            } => {
                let on = on.copy(alloc)?;
                let cases = copy_cases(alloc, cases.as_slice())?;
                let otherwise = copy_stmts(alloc, otherwise.as_slice())?;
                Ok(Stmt::Switch {
                    on,
                    cases,
                    otherwise,
                    at: *at,
                })
            }
            Stmt::For { bind, body, at } => {
                let bind = bind.copy(alloc)?;
                let body = copy_stmts(alloc, body.as_slice())?;
                Ok(Stmt::For {
                    bind,
                    body,
                    at: *at,
                })
            }
            Stmt::Clear { place, at } => {
                let place = place.copy(alloc)?;
                Ok(Stmt::Clear { place, at: *at })
            }
            Stmt::Undefine { place, at } => {
                let place = place.copy(alloc)?;
                Ok(Stmt::Undefine { place, at: *at })
            }
            Stmt::Error { at } => Ok(Stmt::Error { at: *at }),
            Stmt::Assert { test, at } => {
                let test = test.copy(alloc)?;
                Ok(Stmt::Assert { test, at: *at })
            }
            Stmt::Put { value, at } => {
                let value = copy_value(alloc, value)?;
                Ok(Stmt::Put { value, at: *at })
            }
            Stmt::Return { value, at } => {
                let value = copy_value(alloc, value)?;
                Ok(Stmt::Return { value, at: *at })
            }
        }
    }
}

/// An optional expression equal to this one.
pub fn copy_value(alloc: Global, value: &Option<Expr>) -> Result<Option<Expr>, Memory>
    ensures { IfOk result (λ v. v ≡ value.now) }
{
    match value {
        None => Ok(None),
        Some(value) => {
            let value = value.copy(alloc)?;
            Ok(Some(value))
        }
    }
}

/// Statements equal to these.
#[cycle(copy_stmt)]
pub fn copy_stmts(alloc: Global, all: &[Stmt]) -> Result<Items<Stmt>, Memory>
    ensures { IfOk result (λ out. out ≡ all.now) }
{
    let mut out = Items::new(alloc);
    for one in all {
        let copied = one.copy(alloc)?;
        out.push(copied)?;
    }
    Ok(out)
}

#[cycle(copy_stmt)]
fn copy_arms(alloc: Global, all: &[Arm]) -> Result<Items<Arm>, Memory>
    ensures { IfOk result (λ out. out ≡ all.now) }
{
    let mut out = Items::new(alloc);
    for one in all {
        let test = one.test.copy(alloc)?;
        let body = copy_stmts(alloc, one.body.as_slice())?;
        out.push(Arm { test, body })?;
    }
    Ok(out)
}

#[cycle(copy_stmt)]
fn copy_cases(alloc: Global, all: &[Case]) -> Result<Items<Case>, Memory>
    ensures { IfOk result (λ out. out ≡ all.now) }
{
    let mut out = Items::new(alloc);
    for one in all {
        let labels = copy_exprs(alloc, one.labels.as_slice())?;
        let body = copy_stmts(alloc, one.body.as_slice())?;
        out.push(Case { labels, body })?;
    }
    Ok(out)
}
