//! What is wanted of a text, and what the judgement of the symmetry rules answers.

use murphi_ast::text::Text;
use murphi_expressions::expression::expression;
use murphi_lex::tokens;
use murphi_protocols::protocol;
use murphi_typed::protocol::Typed;
use scalarset_rules::discipline::{DisciplineStop, Disciplined, discipline, formula_rule};
use std::alloc::{AllocError, Global};
use type_texts::formula::type_formula;
use type_texts::protocol::type_protocol;

/// What is wanted: no break, or the rule from 1 to 9 that is broken first, with its line and column.
#[derive(Debug, Clone, Copy, PartialEq, Eq)]
pub enum Want {
    Whole,
    Broken(u8, u32, u32),
    /// The text is not read, or not typed.
    NoText,
    Memory,
}

/// Declarations of all that the rows speak of.
pub const DECLARED: &[u8] =
    b"type NODE : scalarset(3); D : scalarset(2); ARR : array [NODE] of boolean;
  R : record f : ARR; g : boolean end; Q : record h : NODE end;
var c : 0..7; n : NODE; d : D; b : boolean; q : Q; S, T : R;
  A, B : ARR; M : array [NODE] of ARR; P : array [boolean] of NODE;
";

/// The typed text; the name of the node type is none where it is empty.
fn typed(alloc: Global, node: &[u8], text: &[u8]) -> Option<Typed> {
    let Ok(all) = tokens(alloc, text) else {
        return None;
    };
    let Ok(tree) = protocol(alloc, &all) else {
        return None;
    };
    let Ok(name) = Text::make(alloc, node) else {
        return None;
    };
    let node = if node.is_empty() { None } else { Some(name) };
    match type_protocol(alloc, &tree, node) {
        Ok(typed) => Some(typed),
        Err(_) => None,
    }
}

/// One text behind another.
fn joined(alloc: Global, before: &[u8], text: &[u8]) -> Result<Vec<u8>, AllocError> {
    let mut whole = Vec::from_slice(alloc, before)?;
    whole.extend_from_slice(text)?;
    Ok(whole)
}

fn judged(alloc: Global, node: &[u8], text: &[u8]) -> Result<Disciplined, Want> {
    match typed(alloc, node, text) {
        None => Err(Want::NoText),
        Some(typed) => match discipline(alloc, typed) {
            Ok(judged) => Ok(judged),
            Err(DisciplineStop::Broken { rule, at }) => Err(Want::Broken(rule, at.line, at.column)),
            Err(DisciplineStop::Memory) => Err(Want::Memory),
        },
    }
}

/// What is answered of a text behind others, with a name for the node type, or none.
pub fn answer(alloc: Global, declared: &[u8], node: &[u8], text: &[u8]) -> Want {
    match joined(alloc, declared, text) {
        Err(_) => Want::Memory,
        Ok(whole) => match judged(alloc, node, &whole) {
            Ok(_) => Want::Whole,
            Err(want) => want,
        },
    }
}

/// The first row that is answered otherwise, if there is one.
pub fn wrong(alloc: Global, declared: &[u8], node: &[u8], rows: &[(&[u8], Want)]) -> Option<usize> {
    for (i, (text, want)) in rows.iter().enumerate() {
        if answer(alloc, declared, node, text) != *want {
            return Some(i);
        }
    }
    None
}

/// What is answered of a formula over a text without a break, whose node type is NODE.
pub fn lemma(alloc: Global, text: &[u8], formula: &[u8]) -> Want {
    let Ok(judged) = judged(alloc, b"NODE", text) else {
        return Want::NoText;
    };
    let Ok(all) = tokens(alloc, formula) else {
        return Want::NoText;
    };
    let Ok((tree, _)) = expression(alloc, &all, 0) else {
        return Want::NoText;
    };
    match type_formula(alloc, judged.typed(), &tree) {
        Err(_) => Want::NoText,
        Ok(typed) => match formula_rule(&judged, &typed) {
            None => Want::Whole,
            Some(at) => Want::Broken(1, at.line, at.column),
        },
    }
}
