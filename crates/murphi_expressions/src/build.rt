//! Trees made of the parts that were read.
ghost use Rattle.std.specs.Prelude.{◌≡◌};
ghost use Rattle.murphi_ast.specs.declared.expr.Expr as e;
ghost use Rattle.murphi_ast.specs.declared.expr.TypeExpr as type;
ghost use Rattle.murphi_grammar.specs.Values.{chained};
ghost use Rattle.murphi_expressions.specs.Says.{Made};

use crate::step::{Stop, boxed};
use murphi_ast::expr::{Bind, CompareOp, Expr, Link, TypeExpr};
use murphi_ast::token::Span;
use sqlite_items::{Boxed, Items};
use std::alloc::Global;

/// `test ? left : right`
pub fn choice(alloc: Global, test: Expr, left: Expr, right: Expr) -> Result<Expr, Stop>
    ensures { Made (e.Choice test left right) result }
{
    let test = boxed(alloc, test)?;
    let left = boxed(alloc, left)?;
    let right = boxed(alloc, right)?;
    Ok(Expr::Choice {
        test,
        yes: left,
        no: right,
    })
}

/// `left -> right`
pub fn implication(alloc: Global, left: Expr, right: Expr) -> Result<Expr, Stop>
    ensures { Made (e.Implies left right) result }
{
    let left = boxed(alloc, left)?;
    let right = boxed(alloc, right)?;
    Ok(Expr::Implies { left, right })
}

/// A chain, or its one operand where no more follow.
pub fn chain_of(alloc: Global, first: Expr, rest: Items<Link>) -> Result<Expr, Stop>
    ensures { Made (chained first rest) result }
{
    if rest.is_empty() {
        return Ok(first);
    }
    let first = boxed(alloc, first)?;
    Ok(Expr::Chain { first, rest })
}

/// `! body`
pub fn negation(alloc: Global, body: Expr, at: Span) -> Result<Expr, Stop>
    ensures { Made (e.Not body at) result }
{
    let body = boxed(alloc, body)?;
    Ok(Expr::Not { body, at })
}

/// A comparison.
pub fn comparison(alloc: Global, op: CompareOp, left: Expr, right: Expr) -> Result<Expr, Stop>
    ensures { Made (e.Compare op left right) result }
{
    let left = boxed(alloc, left)?;
    let right = boxed(alloc, right)?;
    Ok(Expr::Compare { op, left, right })
}

/// `- body`
pub fn minus(alloc: Global, body: Expr, at: Span) -> Result<Expr, Stop>
    ensures { Made (e.Minus body at) result }
{
    let body = boxed(alloc, body)?;
    Ok(Expr::Minus { body, at })
}

/// `forall bind do body end`, or `exists` in its place.
pub fn quantified(alloc: Global, all: bool, bind: Bind, body: Expr, at: Span) -> Result<Expr, Stop>
    ensures { Made (e.Quantified all bind body at) result }
{
    let body = boxed(alloc, body)?;
    match Boxed::new(alloc, bind) {
        Ok(bind) => Ok(Expr::Quantified {
            all,
            bind,
            body,
            at,
        }),
        Err(_) => Err(Stop::Memory),
    }
}

/// `low .. high`
pub fn range(alloc: Global, low: Expr, high: Expr) -> Result<TypeExpr, Stop>
    ensures { Made (type.Range low high) result }
{
    let low = boxed(alloc, low)?;
    let high = boxed(alloc, high)?;
    Ok(TypeExpr::Range { low, high })
}

/// `scalarset ( size )`
pub fn scalarset(alloc: Global, size: Expr, at: Span) -> Result<TypeExpr, Stop>
    ensures { Made (type.Scalarset size at) result }
{
    let size = boxed(alloc, size)?;
    Ok(TypeExpr::Scalarset { size, at })
}

fn boxed_type(alloc: Global, body: TypeExpr) -> Result<Boxed<TypeExpr>, Stop>
    ensures { Made body result }
{
    match Boxed::new(alloc, body) {
        Ok(b) => Ok(b),
        Err(_) => Err(Stop::Memory),
    }
}

/// `array [ index ] of item`
pub fn array(alloc: Global, index: TypeExpr, item: TypeExpr, at: Span) -> Result<TypeExpr, Stop>
    ensures { Made (type.Array index item at) result }
{
    let index = boxed_type(alloc, index)?;
    let item = boxed_type(alloc, item)?;
    Ok(TypeExpr::Array { index, item, at })
}
