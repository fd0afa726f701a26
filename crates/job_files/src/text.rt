//! Files, word by word and item by item.
ghost use Rattle.std.specs.Prelude.{◌≡◌, ◌≤◌, length};
ghost use Rattle.murphi_grammar.specs.Names as n;
ghost use Rattle.murphi_expressions.specs.Says.{Goes};
ghost use Rattle.job_files.specs.Files.{flow_word, lemma_word};
ghost use Rattle.job_files.specs.Walks.{SaysFlows, SaysText, SaysVersion, WithinVersion};

use crate::item::{flow_item, lemma_item};
use crate::word::{is_one_at, is_word_at};
use murphi_ast::job::{Flow, Lemma};
use murphi_ast::token::Token;
use murphi_expressions::step::{Stop, expect, is_at, push};
use murphi_grammar::symbol::Symbol;
use sqlite_items::Items;
use std::alloc::Global;

/// Any number of lemmas, each behind its word, and the end of the text.
#[tactic(auto, using(crate::proofs::TextArms::lemmas_arms))]
pub(crate) fn lemma_items(
    alloc: Global,
    tokens: &[Token],
    at: usize,
    room: u32,
) -> Result<(Items<Lemma>, usize), Stop>
    requires { at ≤ length tokens.now }
    ensures is { SaysText lemma_word n.LemmaItem room tokens.now at result }
{
    let mut lemmas = Items::new(alloc);
    let mut next = at;
    while is_word_at(tokens, next, b"lemma") {
        let (one, behind) = lemma_item(alloc, tokens, next + 1, room)?;
        push(&mut lemmas, one)?;
        next = behind;
    }
    let end = expect(tokens, next, Symbol::EndOfText)?;
    Ok((lemmas, end))
}

/// Any number of flows, each behind its word, and the end of the text.
#[tactic(auto, using(crate::proofs::TextArms::flows_arms))]
fn flow_items(
    alloc: Global,
    tokens: &[Token],
    at: usize,
    room: u32,
) -> Result<(Items<Flow>, usize), Stop>
    requires { at ≤ length tokens.now }
    ensures is { SaysText flow_word n.FlowItem room tokens.now at result }
{
    let mut flows = Items::new(alloc);
    let mut next = at;
    while is_word_at(tokens, next, b"flow") {
        let (one, behind) = flow_item(alloc, tokens, next + 1, room)?;
        push(&mut flows, one)?;
        next = behind;
    }
    let end = expect(tokens, next, Symbol::EndOfText)?;
    Ok((flows, end))
}

/// `flows 1 ;` at the front of the tokens.
#[tactic(auto, using(crate::proofs::TextArms::version_arms))]
fn version(tokens: &[Token]) -> Result<usize, Stop>
    ensures is { SaysVersion tokens.now result }
    ensures within { WithinVersion tokens.now result }
{
    if !is_word_at(tokens, 0, b"flows") {
        return Err(Stop::Wrong(0));
    }
    if !is_one_at(tokens, 1) {
        return Err(Stop::Wrong(1));
    }
    if !is_at(tokens, 2, Symbol::Semicolon) {
        return Err(Stop::Wrong(2));
    }
    Ok(3)
}

/// A file of flows.
#[tactic(auto, using(crate::proofs::TextArms::file_arms))]
pub(crate) fn flow_file(
    alloc: Global,
    tokens: &[Token],
    room: u32,
) -> Result<(Items<Flow>, usize), Stop>
    ensures is { SaysFlows room tokens.now result }
{
    if is_at(tokens, 0, Symbol::EndOfText) {
        return Ok((Items::new(alloc), 1));
    }
    let start = version(tokens)?;
    let (flows, end) = flow_items(alloc, tokens, start, room)?;
    Ok((flows, end))
}
