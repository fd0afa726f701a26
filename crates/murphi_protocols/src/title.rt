//! Titles.
ghost use Rattle.std.specs.Prelude.{◌≡◌, ◌≤◌, length};
ghost use Rattle.murphi_expressions.specs.Says.{Stays};
ghost use Rattle.murphi_protocols.specs.Parts.{SaysTitle};

use murphi_ast::text::Text;
use murphi_ast::token::Token;
use murphi_expressions::step::{Stop, is_at, token_at};
use murphi_grammar::symbol::Symbol;
use std::alloc::Global;

/// A title, where one stands at an index.
#[tactic(auto, using(crate::proofs::TitleArms::title_arms))]
pub fn title(alloc: Global, tokens: &[Token], at: usize) -> Result<(Option<Text>, usize), Stop>
    requires { at ≤ length tokens.now }
    ensures is { SaysTitle tokens.now at result }
    ensures goes { Stays at tokens.now result }
{
    match token_at(tokens, at) {
        None => Ok((None, at)),
        Some(token) => {
            if !is_at(tokens, at, Symbol::Quoted) {
                return Ok((None, at));
            }
            match token.text.copy(alloc) {
                Ok(text) => Ok((Some(text), at + 1)),
                Err(_) => Err(Stop::Memory),
            }
        }
    }
}
