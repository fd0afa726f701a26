//! The variables of a protocol.

ghost use Rattle.std.specs.Prelude.{◌≡◌, ◌++◌, IfOk, OnOk, map};
ghost use Rattle.murphi_ast.specs.declared.expr.Named.{Named};
ghost use Rattle.murphi_ast.specs.State.{variables, declared_by};

use murphi_ast::decl::Decl;
use murphi_ast::expr::Named;
use murphi_ast::rule::Protocol;
use murphi_ast::text::{Memory, Text};
use sqlite_items::Items;
use std::alloc::Global;

/// The variables of a protocol, in the order of their declarations.
pub fn variables(alloc: Global, p: &Protocol) -> Result<Items<Text>, Memory>
    ensures { IfOk result (λ names. names ≡ variables p.now) }
{
    let mut names = Items::new(alloc);
    for decl in p.decls.as_slice() {
        let more = declared_by(alloc, decl)?;
        names.append(more)?;
    }
    Ok(names)
}

/// The variables that a declaration declares.
fn declared_by(alloc: Global, decl: &Decl) -> Result<Items<Text>, Memory>
    ensures { IfOk result (λ names. names ≡ declared_by decl.now) }
{
    match decl {
        Decl::Variables { names, .. } => {
            let names = texts(alloc, names.as_slice())?;
            Ok(names)
        }
        Decl::Constant { .. } | Decl::TypeName { .. } | Decl::Routine(_) => Ok(Items::new(alloc)),
    }
}

/// The names alone, without their places.
fn texts(alloc: Global, declared: &[Named]) -> Result<Items<Text>, Memory>
    ensures { IfOk result (λ names. names ≡ map (λ (n : Named). n.name) declared.now) }
{
    let mut names = Items::new(alloc);
    for one in declared {
        let name = one.name.copy(alloc)?;
        names.push(name)?;
    }
    Ok(names)
}
