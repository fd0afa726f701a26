//! The tokens of a text: what kind each is, its bytes, and the place of its first byte.

use crate::text::Text;

/// A place in a text. Lines and columns count from 1, in bytes; a line feed ends a line, and a
/// tab is one column.
#[derive(Clone, Copy, Debug, PartialEq, Eq)]
pub struct Span {
    pub line: u32,
    pub column: u32,
}

/// What a token is. `Quoted` is a string, and `End` stands once, after the last byte of the text.
#[derive(Clone, Copy, Debug, PartialEq, Eq)]
pub enum TokenKind {
    Word,
    Number,
    Quoted,
    Sign,
    End,
}

/// A token. `text` has its bytes as written; for a string those between the quotes, and none at
/// the end of the text. `number` is the value of a number, and 0 for every other kind.
#[derive(Debug, Drop)]
pub struct Token {
    pub kind: TokenKind,
    pub text: Text,
    pub number: u16,
    pub at: Span,
}

/// The first place where the bytes of a text are not gaps and tokens by turns: E02 at a byte that
/// may not stand outside comments, E03 where no token starts, where a comment or a string is
/// opened and not closed, and at a number above 32,767.
#[derive(Clone, Copy, Debug, PartialEq, Eq)]
pub enum Fault {
    /// A byte that may not stand outside comments.
    E02(Span),
    /// No token starts here.
    E03(Span),
}
