//! The reading of a whole text: its tokens, and the first fault where it has one.

ghost use Rattle.std.specs.Prelude.{◌≡◌, ℕ, List, Option, Some, IfOk, IfErr, MatchResult, IsTrue};
ghost use Rattle.murphi_ast.specs.Bytes.{after, past, start};
ghost use Rattle.murphi_ast.specs.Spelling.{token_at, end_token, ends_once, IsEnded, Reads, Spells, FaultsFirst};
ghost use Rattle.murphi_ast.specs.declared.token.Token.{Token};
ghost use Rattle.murphi_ast.specs.declared.token.Fault.{Fault};
ghost use Rattle.murphi_ast.specs.declared.token.Span.{Span};
ghost use Rattle.murphi_lex.specs.Places.{IsPlace, StandsAt, fault_place};
ghost use Rattle.murphi_lex.specs.Scanning.{text_reading};
ghost use Rattle.murphi_lex.specs.Seen.{lexeme_seen, reading_seen};
ghost use Rattle.murphi_lex.specs.Refusals.{IsRefusal, Tells};

use crate::front::{Front, Lexeme, front_of};
use murphi_ast::text::{Memory, Text};
use murphi_ast::token::{Fault, Span, Token, TokenKind};
use std::alloc::Global;

/// The tokens of a text up to its first fault. Where it has none, the End token is the last.
#[derive(Debug, Drop)]
pub struct Scanned {
    pub tokens: Vec<Token>,
    pub fault: Option<Fault>,
}

/// Why a text has no list of tokens: its first fault, or want of memory.
#[derive(Debug, Drop)]
pub enum LexRefusal {
    /// A byte that may not stand outside comments.
    E02(Span),
    /// No token starts here; an open comment, an open string, or a number above 32,767.
    E03(Span),
    /// The allocator gave none, or a line or a column would pass the greatest u32.
    Memory,
}

/// The tokens of a text: the one list that its bytes spell. A refusal is the first fault of the
/// text, or want of memory.
pub fn tokens(alloc: Global, bytes: &[u8]) -> Result<Vec<Token>, LexRefusal>
    ensures spelled { IfOk result (λ v. Spells bytes.now v.items) }
    ensures ended { IfOk result (λ v. IsTrue (ends_once v.items)) }
    ensures refused { IfErr result (λ e. IsRefusal bytes.now e) }

    // What the bytes spell is the answer, unless memory runs out, and so is their first fault.
    ensures only { (tokens : List Token) → Spells bytes.now tokens →
        MatchResult result (λ v. v.items ≡ tokens) (λ e. e ≡ LexRefusal.Memory) }
    ensures first { (fault : Fault) → FaultsFirst bytes.now fault →
        MatchResult result (λ _. ⊥) (λ e. Tells e fault) }
{
    let Scanned { tokens, fault } = match scan(alloc, bytes) {
        Ok(scanned) => scanned,
        Err(Memory) => return Err(LexRefusal::Memory),
    };
    match fault {
        None => Ok(tokens),
        Some(Fault::E02(at)) => Err(LexRefusal::E02(at)),
        Some(Fault::E03(at)) => Err(LexRefusal::E03(at)),
    }
}

/// The tokens of a text up to its first fault, and that fault; of a text without one, all of its
/// tokens, with End as the last.
pub fn scan(alloc: Global, bytes: &[u8]) -> Result<Scanned, Memory>
    ensures reads { IfOk result (λ s. Reads start bytes.now s.tokens.items s.fault) }
    ensures ended { IfOk result (λ s. IsEnded s.tokens.items s.fault) }

    // Unless memory runs out, what the bytes are read as is the answer.
    ensures only { (tokens : List Token) (fault : Option Fault) → Reads start bytes.now tokens fault →
        IfOk result (λ s. (s.tokens.items ≡ tokens) × (s.fault ≡ fault)) }
{
    let scanned = read(alloc, bytes)?;
    Ok(scanned)
}

/// A law: each text is read as one list of tokens and one first fault or none, and as no other.
/// What it is read as is computed by `text_reading`.
pub fn one_reading()
    ensures one { (bytes : List ℕ) (ts us : List Token) (e f : Option Fault) →
        Reads start bytes ts e → Reads start bytes us f → (ts ≡ us) × (e ≡ f) }
    ensures some { (bytes : List ℕ) →
        Reads start bytes (text_reading bytes).tokens (text_reading bytes).fault }
{}

/// A law: the place of each token of a text, and that of its fault, is behind some front of its bytes.
pub fn places_are_of_the_text()
    ensures tokens { (bytes : List ℕ) (tokens : List Token) (fault : Option Fault) (at : Span) →
        Reads start bytes tokens fault → StandsAt tokens at → IsPlace bytes at }
    ensures faults { (bytes : List ℕ) (tokens : List Token) (fault : Fault) →
        Reads start bytes tokens (Some fault) → IsPlace bytes (fault_place fault) }
{}

/// The reading of a text, as it is computed.
#[tactic(auto, using(crate::proofs::ReadingLemmas::turns))]
fn read(alloc: Global, bytes: &[u8]) -> Result<Scanned, Memory>
    ensures { IfOk result (λ s. reading_seen s ≡ text_reading bytes.now) }
{
    let mut tokens = Vec::new(alloc);
    let mut at = Span { line: 1, column: 1 };
    let mut rest = bytes;
    while !rest.is_empty() {
        match front_of(rest) {
            Front::Gap(length) => {
                let (gap, left) = rest.split_at(length);
                at = past(gap, at)?;
                rest = left;
            }
            Front::Taken(lexeme) => {
                tokens.push(token_at(alloc, &lexeme, at)?)?;
                let (spelled, left) = rest.split_at(lexeme.length);
                at = past(spelled, at)?;
                rest = left;
            }
            Front::BadByte => return Ok(faulty(tokens, Fault::E02(at))),
            Front::NoToken => return Ok(faulty(tokens, Fault::E03(at))),
        }
    }
    tokens.push(end_token(alloc, at)?)?;
    Ok(Scanned {
        tokens,
        fault: None,
    })
}

fn faulty(tokens: Vec<Token>, fault: Fault) -> Scanned
    ensures { reading_seen result ≡ record { tokens = tokens.items; fault = Some fault } }
{
    Scanned {
        tokens,
        fault: Some(fault),
    }
}

fn token_at(alloc: Global, lexeme: &Lexeme<'_>, at: Span) -> Result<Token, Memory>
    ensures { IfOk result (λ t. t ≡ token_at at (lexeme_seen lexeme.now)) }
{
    let text = Text::make(alloc, lexeme.text)?;
    Ok(Token {
        kind: lexeme.kind,
        text,
        number: lexeme.number,
        at,
    })
}

fn end_token(alloc: Global, at: Span) -> Result<Token, Memory>
    ensures { IfOk result (λ t. t ≡ end_token at) }
{
    let text = Text::make(alloc, b"")?;
    Ok(Token {
        kind: TokenKind::End,
        text,
        number: 0,
        at,
    })
}

/// The place behind these bytes, where the first of them stands at `at`.
fn past(bytes: &[u8], at: Span) -> Result<Span, Memory>
    ensures { IfOk result (λ p. p ≡ past bytes.now at) }
{
    let mut place = at;
    for b in bytes {
        place = after(*b, place)?;
    }
    Ok(place)
}

fn after(b: u8, at: Span) -> Result<Span, Memory>
    ensures { IfOk result (λ p. p ≡ after b at) }
{
    if b == b'\n' {
        let line = at.line.checked_add(1).ok_or(Memory)?;
        return Ok(Span { line, column: 1 });
    }
    let column = at.column.checked_add(1).ok_or(Memory)?;
    Ok(Span {
        line: at.line,
        column,
    })
}
