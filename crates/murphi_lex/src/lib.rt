//! Bytes to tokens: the one reading of a Murphi text as gaps and tokens by turns, or the first
//! place where it has none.
#![tactic(auto)]

mod bytes;
mod front;
mod scanning;

pub use murphi_ast::text::Memory;
pub use murphi_ast::token::{Fault, Span, Token, TokenKind};
pub use scanning::{LexRefusal, Scanned, one_reading, places_are_of_the_text, scan, tokens};
