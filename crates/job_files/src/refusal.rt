//! Why a file of lemmas or of flows is refused.

use murphi_ast::token::Span;

/// Why a file spells no list, with the place of the token or byte that is to blame.
#[derive(Debug, Clone, Copy, PartialEq, Eq, Drop)]
pub enum JobRefusal {
    /// A byte that no text has.
    E02(Span),
    /// What begins here is no token.
    E03(Span),
    /// With this token the tokens before it begin no such file.
    E04(Span),
    /// This name was used before.
    E06(Span),
    /// A word that is left out of the language.
    E10(Span),
    /// This token opens the 101st nesting.
    E15(Span),
    /// There was no memory.
    Memory,
}
