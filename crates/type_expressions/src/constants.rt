//! Which expressions are written as constants are.
#![tactic(auto, using(crate::proofs::ConstantEquations::constants))]

ghost use Rattle.std.specs.Prelude.{◌≡◌, ◌&&◌, IfOk};
ghost use Rattle.murphi_types.specs.Constants.{is_constant, is_constant_name};
ghost use Rattle.type_expressions.specs.PartLists.{list_constants, constant_place};

use murphi_ast::expr::{Designator, Expr, Link};
use murphi_ast::text::Memory;
use murphi_types::scope::Meaning;
use type_parts::context::Context;

fn is_constant_name(what: Option<Meaning>) -> bool
    ensures { result ≡ is_constant_name what }
{
    match what {
        Some(Meaning::Constant(_)) => true,
        Some(Meaning::Member { .. }) => true,
        _ => false,
    }
}

fn is_constant_place(context: &Context, place: &Designator) -> Result<bool, Memory>
    ensures { IfOk result (λ b. b ≡ constant_place context.now.scope context.now.known place.now) }
{
    match place.selectors.as_slice() {
        [] => {
            let what = context.look(&place.root.name)?;
            Ok(is_constant_name(what))
        }
        [..] => Ok(false),
    }
}

fn both(a: bool, b: bool) -> bool
    ensures { result ≡ (a && b) }
{
    if a { b } else { false }
}

/// Whether an expression is written as a constant is.
#[cycle(constant)]
pub fn is_constant(context: &Context, e: &Expr) -> Result<bool, Memory>
    ensures { IfOk result (λ b. b ≡ is_constant context.now.scope context.now.known e.now) }
{
    match e {
        Expr::Number { .. } => Ok(true),
        Expr::Truth { .. } => Ok(true),
        Expr::Place(place) => {
            let b = is_constant_place(context, place)?;
            Ok(b)
        }
        Expr::Not { body, .. } => {
            let b = is_constant(context, body.get())?;
            Ok(b)
        }
        Expr::Minus { body, .. } => {
            let b = is_constant(context, body.get())?;
            Ok(b)
        }
        Expr::Chain { first, rest } => {
            let a = is_constant(context, first.get())?;
            let b = are_constants(context, rest.as_slice())?;
            Ok(both(a, b))
        }
        Expr::Compare { left, right, .. } => {
            let a = is_constant(context, left.get())?;
            let b = is_constant(context, right.get())?;
            Ok(both(a, b))
        }
        Expr::Implies { left, right } => {
            let a = is_constant(context, left.get())?;
            let b = is_constant(context, right.get())?;
            Ok(both(a, b))
        }
        Expr::Choice { test, yes, no } => {
            let a = is_constant(context, test.get())?;
            let b = is_constant(context, yes.get())?;
            let c = is_constant(context, no.get())?;
            Ok(both(a, both(b, c)))
        }
        Expr::Call { .. } => Ok(false),
        Expr::Quantified { .. } => Ok(false),
        Expr::IsUndefined { .. } => Ok(false),
    }
}

#[cycle(constant)]
fn are_constants(context: &Context, all: &[Link]) -> Result<bool, Memory>
    ensures { IfOk result (λ b. b ≡ list_constants context.now.scope context.now.known all.now) }
{
    for one in all {
        let b = is_constant(context, &one.operand)?;
        if !b {
            return Ok(false);
        }
    }
    Ok(true)
}
