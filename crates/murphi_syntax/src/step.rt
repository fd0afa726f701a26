//! What the functions that read lists of parts answer, step by step.
use murphi_ast::token::Span;

/// What was read, with the index behind it, or the place of a token that does not fit.
#[derive(Drop)]
pub enum ReadOf<T> {
    Got { tree: T, next: usize },
    Stop(Span),
}

/// One step of reading a list: it goes on at an index, ends there, or stops at a token that does
/// not fit.
#[derive(Debug, Clone, Copy, PartialEq, Eq)]
pub enum Step {
    More(usize),
    End(usize),
    Stop(Span),
}
