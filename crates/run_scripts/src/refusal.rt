//! Lines of a script, and why a script is refused.

use murphi_ast::token::Span;
use sqlite_items::Items;
use term_core::value::Value;

/// A line of a script: the number of a start state or rule in the text, from 0, and a value for each of its
/// parameters, the outermost first.
#[derive(Drop)]
pub struct Line {
    pub which: usize,
    pub values: Items<Value>,
}

/// Why bytes spell no script, with the place of the token or byte that is to blame.
#[derive(Debug, Clone, Copy, PartialEq, Eq, Drop)]
pub enum ScriptRefusal {
    /// A byte that no text has.
    E02(Span),
    /// What begins here is no token.
    E03(Span),
    /// With this token, or with the value that begins here, the tokens before it begin no script.
    E19(Span),
    /// There was no memory.
    Memory,
}
