//! Words that are names to the grammar, and the number 1.
ghost use Rattle.std.specs.Prelude.{◌≡◌, ◌<◌, length, drop, true, false};
ghost use Rattle.job_files.specs.Files.{IsOne, IsWord};
ghost use Rattle.job_files.specs.Walks.{IsNext, IsNotNext};

use murphi_ast::token::Token;
use murphi_expressions::step::{is_at, token_at};
use murphi_grammar::symbol::Symbol;

/// Whether this word stands at an index, in small letters.
#[tactic(auto, using(crate::proofs::WordArms::wording))]
pub(crate) fn is_word_at(tokens: &[Token], at: usize, word: &[u8]) -> bool
    ensures yes { result ≡ true → IsNext (IsWord word.now) (drop at tokens.now) }
    ensures not { result ≡ false → IsNotNext (IsWord word.now) (drop at tokens.now) }
    ensures within { result ≡ true → at < length tokens.now }
{
    match token_at(tokens, at) {
        None => false,
        Some(token) => {
            if !is_at(tokens, at, Symbol::Name) {
                return false;
            }
            token.text.bytes() == word
        }
    }
}

/// Whether the number 1 stands at an index.
#[tactic(auto, using(crate::proofs::WordArms::wording))]
pub(crate) fn is_one_at(tokens: &[Token], at: usize) -> bool
    ensures yes { result ≡ true → IsNext IsOne (drop at tokens.now) }
    ensures not { result ≡ false → IsNotNext IsOne (drop at tokens.now) }
    ensures within { result ≡ true → at < length tokens.now }
{
    match token_at(tokens, at) {
        None => false,
        Some(token) => {
            if !is_at(tokens, at, Symbol::Number) {
                return false;
            }
            token.number == 1
        }
    }
}
