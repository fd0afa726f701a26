//! Declarations and routines.
ghost use Rattle.std.specs.Prelude.{◌≡◌, IfOk};

use crate::expr::{Expr, Named, TypeExpr, copy_names};
use crate::stmt::{Stmt, copy_stmts};
use crate::text::Memory;
use sqlite_items::Items;
use std::alloc::Global;

/// A declaration.
#[cycle(decl)]
#[derive(Drop)]
pub enum Decl {
    Constant { name: Named, value: Expr },
    TypeName { name: Named, body: TypeExpr },
    Variables { names: Items<Named>, body: TypeExpr },
    Routine(Routine),
}

/// A procedure, or a function where it has a result.
#[cycle(decl)]
#[derive(Drop)]
pub struct Routine {
    pub name: Named,
    pub formals: Items<Formal>,
    pub result: Option<TypeExpr>,
    pub locals: Items<Decl>,
    pub body: Items<Stmt>,
}

/// Formals of one type. `by_place` says that `var` stands before them.
#[derive(Drop)]
pub struct Formal {
    pub by_place: bool,
    pub names: Items<Named>,
    pub body: TypeExpr,
}

impl Decl {
    /// A declaration equal to this one.
    #[cycle(copy_decl)]
    pub fn copy(&self, alloc: Global) -> Result<Decl, Memory>
        ensures { IfOk result (λ d. d ≡ self.now) }
    {
        match self {
            Decl::Constant { name, value } => {
                let name = name.copy(alloc)?;
                let value = value.copy(alloc)?;
                Ok(Decl::Constant { name, value })
            }
            Decl::TypeName { name, body } => {
                let name = name.copy(alloc)?;
                let body = body.copy(alloc)?;
                Ok(Decl::TypeName { name, body })
            }
            Decl::Variables { names, body } => {
                let names = copy_names(alloc, names.as_slice())?;
                let body = body.copy(alloc)?;
                Ok(Decl::Variables { names, body })
            }
            Decl::Routine(routine) => {
                let routine = routine.copy(alloc)?;
                Ok(Decl::Routine(routine))
            }
        }
    }
}

/// Declarations equal to these.
#[cycle(copy_decl)]
pub fn copy_decls(alloc: Global, all: &[Decl]) -> Result<Items<Decl>, Memory>
    ensures { IfOk result (λ out. out ≡ all.now) }
{
    let mut out = Items::new(alloc);
    for one in all {
        let copied = one.copy(alloc)?;
        out.push(copied)?;
    }
    Ok(out)
}

impl Routine {
    /// A routine equal to this one.
    #[cycle(copy_decl)]
    pub fn copy(&self, alloc: Global) -> Result<Routine, Memory>
        ensures { IfOk result (λ r. r ≡ self.now) }
    {
        let name = self.name.copy(alloc)?;
        let formals = copy_formals(alloc, self.formals.as_slice())?;
        let result_type = copy_result(alloc, &self.result)?;
        let locals = copy_decls(alloc, self.locals.as_slice())?;
        let body = copy_stmts(alloc, self.body.as_slice())?;
        Ok(Routine {
            name,
            formals,
            result: result_type,
            locals,
            body,
        })
    }
}

fn copy_result(alloc: Global, ty: &Option<TypeExpr>) -> Result<Option<TypeExpr>, Memory>
    ensures { IfOk result (λ t. t ≡ ty.now) }
{
    match ty {
        None => Ok(None),
        Some(ty) => {
            let ty = ty.copy(alloc)?;
            Ok(Some(ty))
        }
    }
}

fn copy_formals(alloc: Global, all: &[Formal]) -> Result<Items<Formal>, Memory>
    ensures { IfOk result (λ out. out ≡ all.now) }
{
    let mut out = Items::new(alloc);
    for one in all {
        let names = copy_names(alloc, one.names.as_slice())?;
        let body = one.body.copy(alloc)?;
        out.push(Formal {
            by_place: one.by_place,
            names,
            body,
        })?;
    }
    Ok(out)
}
