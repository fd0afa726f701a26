//! What is wanted of a text, and what is answered.

use murphi_expressions::refusal::SyntaxRefusal;
use murphi_lex::tokens;
use murphi_protocols::protocol;
use std::alloc::{AllocError, Global};

/// What is wanted of a text: how many declarations and items it has, or the place where it is refused.
#[derive(Debug, Clone, Copy, PartialEq, Eq)]
pub enum Want {
    Tree(usize, usize),
    E04(u32, u32),
    E10(u32, u32),
    E15(u32, u32),
    NoTokens,
    Memory,
}

/// What is answered of a text.
pub fn answer(alloc: Global, text: &[u8]) -> Want {
    match tokens(alloc, text) {
        Err(_) => Want::NoTokens,
        Ok(all) => match protocol(alloc, &all) {
            Ok(tree) => Want::Tree(tree.decls.len(), tree.rules.len()),
            Err(SyntaxRefusal::E04(at)) => Want::E04(at.line, at.column),
            Err(SyntaxRefusal::E10(at)) => Want::E10(at.line, at.column),
            Err(SyntaxRefusal::E15(at)) => Want::E15(at.line, at.column),
            Err(SyntaxRefusal::Memory) => Want::Memory,
        },
    }
}

/// A text with some of its parts repeated: before, so often the opening, the middle, so often the closing,
/// behind.
#[derive(Clone, Copy)]
pub struct Shape<'a> {
    pub before: &'a [u8],
    pub opening: &'a [u8],
    pub middle: &'a [u8],
    pub closing: &'a [u8],
    pub behind: &'a [u8],
}

/// The text of a shape.
pub fn text_of(alloc: Global, shape: &Shape, count: usize) -> Result<Vec<u8>, AllocError> {
    let mut text = Vec::from_slice(alloc, shape.before)?;
    for _ in 0..count {
        text.extend_from_slice(shape.opening)?;
    }
    text.extend_from_slice(shape.middle)?;
    for _ in 0..count {
        text.extend_from_slice(shape.closing)?;
    }
    text.extend_from_slice(shape.behind)?;
    Ok(text)
}
