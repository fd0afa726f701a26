//! Why the tokens of a text are refused.
ghost use Rattle.std.specs.Prelude.{◌≡◌};
ghost use Rattle.murphi_expressions.specs.Expression.{first_refused};

use murphi_ast::token::{Span, Token};
use murphi_grammar::symbol::{Symbol, symbol_of};

/// Why the tokens of a text spell nothing, with the place of the token that is to blame.
#[derive(Debug, Clone, Copy, PartialEq, Eq, Drop)]
pub enum SyntaxRefusal {
    /// With this token the tokens before it begin the form no longer.
    E04(Span),
    /// A word that is left out of the language.
    E10(Span),
    /// This token opens the 101st nesting.
    E15(Span),
    /// There was no memory.
    Memory,
}

/// The place of the first refused word.
pub fn first_refused(tokens: &[Token]) -> Option<Span>
    ensures { result ≡ first_refused tokens.now }
{
    for token in tokens {
        if let Symbol::Refused = symbol_of(token) {
            return Some(token.at);
        }
    }
    None
}
