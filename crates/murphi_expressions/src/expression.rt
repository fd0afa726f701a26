//! An expression, read from an index of the tokens of a text.
ghost use Rattle.std.specs.Prelude.{◌≡◌, ◌<◌, ℕ, Result, length, IsTrue};
ghost use Rattle.murphi_ast.specs.Spelling.{ends_once};
ghost use Rattle.murphi_ast.specs.declared.expr.Expr.{Expr};
ghost use Rattle.murphi_expressions.specs.Expression.{TellsExpression, IsAnswered};
ghost use Rattle.murphi_expressions.specs.declared.refusal.SyntaxRefusal.{SyntaxRefusal};

use crate::reader::expr;
use crate::refusal::{SyntaxRefusal, first_refused};
use crate::step::{Stop, place_at};
use murphi_ast::expr::Expr;
use murphi_ast::token::Token;
use murphi_grammar::laws::{one_reading, walks_are_readings};
use std::alloc::Global;

/// How many nestings may be open at once.
pub const GREATEST_NESTING: u32 = 100;

/// The expression that is read from an index of the tokens of a text on, and the index behind it: that of the
/// first token with which the tokens before it begin no expression. A refused word anywhere in the text comes
/// first.
pub fn expression(
    alloc: Global,
    tokens: &[Token],
    at: usize,
) -> Result<(Expr, usize), SyntaxRefusal>
    requires text { IsTrue (ends_once tokens.now) }
    requires within { at < length tokens.now }

    // What each answer tells of the tokens; want of memory tells nothing.
    ensures told { TellsExpression tokens.now at result }

    // What may be told is answered, unless memory runs out.
    ensures only { (answer : Result (Expr × ℕ) SyntaxRefusal) → TellsExpression tokens.now at answer →
        IsAnswered result answer }
{
    walks_are_readings();
    one_reading();
    match first_refused(tokens) {
        Some(place) => Err(SyntaxRefusal::E10(place)),
        None => match expr(alloc, tokens, at, GREATEST_NESTING) {
            Ok((tree, next)) => Ok((tree, next)),
            Err(Stop::Wrong(i)) => Err(SyntaxRefusal::E04(place_at(tokens, i))),
            Err(Stop::Deep(i)) => Err(SyntaxRefusal::E15(place_at(tokens, i))),
            Err(Stop::Memory) => Err(SyntaxRefusal::Memory),
        },
    }
}
