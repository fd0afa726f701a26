//! The place of the first token of an expression and of a type.
#![tactic(auto, using(crate::proofs::PlaceEquations::places))]

ghost use Rattle.std.specs.Prelude.{◌≡◌};
ghost use Rattle.murphi_types.specs.Places.{place_of, type_place_of};

use murphi_ast::expr::{Expr, TypeExpr};
use murphi_ast::token::Span;

/// The place of the first token of an expression. Opening parentheses are passed over.
pub fn place_of(e: &Expr) -> Span
    ensures { result ≡ place_of e.now }
{
    match e {
        Expr::Number { at, .. } => *at,
        Expr::Truth { at, .. } => *at,
        Expr::Place(place) => place.root.at,
        Expr::Call { name, .. } => name.at,
        Expr::Not { at, .. } => *at,
        Expr::Minus { at, .. } => *at,
        Expr::Chain { first, .. } => place_of(first.get()),
        Expr::Compare { left, .. } => place_of(left.get()),
        Expr::Implies { left, .. } => place_of(left.get()),
        Expr::Choice { test, .. } => place_of(test.get()),
        Expr::Quantified { at, .. } => *at,
        Expr::IsUndefined { at, .. } => *at,
    }
}

/// The place of the first token of a type.
pub fn type_place_of(t: &TypeExpr) -> Span
    ensures { result ≡ type_place_of t.now }
{
    match t {
        TypeExpr::Known(name) => name.at,
        TypeExpr::Truth(at) => *at,
        TypeExpr::Range { low, .. } => place_of(low.get()),
        TypeExpr::Listed { at, .. } => *at,
        TypeExpr::Scalarset { at, .. } => *at,
        TypeExpr::Fields { at, .. } => *at,
        TypeExpr::Array { at, .. } => *at,
    }
}
