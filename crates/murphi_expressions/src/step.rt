//! Steps over single tokens, from an index of the tokens.
ghost use Rattle.std.specs.Prelude.{◌≡◌, ◌<◌, ◌≤◌, ◌++◌, ◌∷◌, ℕ, [], length, drop, true, slice_get, nat_eq, OnSome, MatchResult};
ghost use Rattle.std.specs.Option.{option_copied};
ghost use Rattle.murphi_grammar.specs.declared.symbol.Symbol.TheVariants as t;
ghost use Rattle.murphi_grammar.specs.Parts.{one, ending};
ghost use Rattle.murphi_grammar.specs.Tables.{code};
ghost use Rattle.murphi_grammar.specs.Values.{named};
ghost use Rattle.murphi_expressions.specs.Says.{can_begin, Passes, Takes, Opens, Enters, Goes, Steps, Made, Pushed, place_of, number_of};

use murphi_ast::expr::{Expr, Named};
use murphi_ast::token::{Span, Token};
use murphi_grammar::symbol::{Symbol, symbol_of};
use sqlite_items::{Boxed, Items};
use std::alloc::Global;

/// Why reading stopped: at a token that does not fit, at one that opens a nesting too many, or for want of
/// memory. Tokens are named by their index.
#[derive(Debug, Clone, Copy, PartialEq, Eq, Drop)]
pub enum Stop {
    Wrong(usize),
    Deep(usize),
    Memory,
}

/// Whether two symbols are one.
#[tactic(auto, using(crate::proofs::SymbolNumbers::same))]
pub fn is_same(a: Symbol, b: Symbol) -> bool
    ensures { result ≡ nat_eq (code a) (code b) }
{
    a as u8 == b as u8
}

/// The token at an index.
pub fn token_at(tokens: &[Token], at: usize) -> Option<&Token>
    ensures value { option_copied result ≡ slice_get tokens.now at }
    ensures within { OnSome result (at < length tokens.now) }
{
    tokens.get(at)
}

/// Whether a symbol stands at an index.
#[tactic(auto, using(crate::proofs::Heads::heads))]
pub fn is_at(tokens: &[Token], at: usize, symbol: Symbol) -> bool
    ensures is { result ≡ can_begin (one symbol) tokens.now at }
    ensures within { result ≡ true → at < length tokens.now }
{
    match token_at(tokens, at) {
        Some(token) => is_same(symbol_of(token), symbol),
        None => false,
    }
}

/// The place of the token at an index.
#[tactic(auto, using(crate::proofs::Heads::heads))]
pub fn place_at(tokens: &[Token], at: usize) -> Span
    ensures { result ≡ place_of (drop at tokens.now) }
{
    match token_at(tokens, at) {
        Some(token) => token.at,
        None => Span { line: 1, column: 1 },
    }
}

/// The number of the token at an index.
#[tactic(auto, using(crate::proofs::Heads::heads))]
pub fn number_at(tokens: &[Token], at: usize) -> u16
    ensures { result ≡ number_of (drop at tokens.now) }
{
    match token_at(tokens, at) {
        Some(token) => token.number,
        None => 0,
    }
}

/// The index behind a symbol that is to stand at an index.
#[tactic(auto, using(crate::proofs::Steps::expecting))]
pub fn expect(tokens: &[Token], at: usize, symbol: Symbol) -> Result<usize, Stop>
    ensures is { Passes (one symbol) tokens.now at result }
    ensures goes { Steps at tokens.now result }
{
    if is_at(tokens, at, symbol) {
        return Ok(at + 1);
    }
    Err(Stop::Wrong(at))
}

/// The index behind the end of a form: `end`, or the form's own word.
#[tactic(auto, using(crate::proofs::Steps::expecting))]
pub fn expect_end(tokens: &[Token], at: usize, word: Symbol) -> Result<usize, Stop>
    ensures is { Passes (ending word) tokens.now at result }
    ensures goes { Steps at tokens.now result }
{
    if is_at(tokens, at, Symbol::End) {
        return Ok(at + 1);
    }
    if is_at(tokens, at, word) {
        return Ok(at + 1);
    }
    Err(Stop::Wrong(at))
}

/// The room inside a nesting that opens at an index.
pub fn enter(at: usize, room: u32) -> Result<u32, Stop>
    ensures { Enters at room result }
{
    if room == 0 {
        return Err(Stop::Deep(at));
    }
    Ok(room - 1)
}

/// The room inside a nesting that a symbol is to open at an index.
#[tactic(auto, using(crate::proofs::Steps::expecting))]
pub fn open(tokens: &[Token], at: usize, symbol: Symbol, room: u32) -> Result<u32, Stop>
    ensures is { Opens symbol room tokens.now at result }
    ensures within { MatchResult result (λ _. at < length tokens.now) (λ _. Unit {0}) }
{
    if !is_at(tokens, at, symbol) {
        return Err(Stop::Wrong(at));
    }
    enter(at, room)
}

/// The name that a token writes.
pub fn named(alloc: Global, token: &Token) -> Result<Named, Stop>
    ensures { Made (named token.now) result }
{
    match token.text.copy(alloc) {
        Ok(name) => Ok(Named { name, at: token.at }),
        Err(_) => Err(Stop::Memory),
    }
}

/// A name that is to stand at an index.
#[tactic(auto, using(crate::proofs::Steps::naming))]
pub fn name(alloc: Global, tokens: &[Token], at: usize) -> Result<(Named, usize), Stop>
    ensures is { Takes (one t.Name) named tokens.now at result }
    ensures goes { Goes at tokens.now result }
{
    match token_at(tokens, at) {
        None => Err(Stop::Wrong(at)),
        Some(token) => {
            if !is_at(tokens, at, Symbol::Name) {
                return Err(Stop::Wrong(at));
            }
            let name = named(alloc, token)?;
            Ok((name, at + 1))
        }
    }
}

/// An expression on the heap.
pub fn boxed(alloc: Global, body: Expr) -> Result<Boxed<Expr>, Stop>
    ensures { Made body result }
{
    match Boxed::new(alloc, body) {
        Ok(b) => Ok(b),
        Err(_) => Err(Stop::Memory),
    }
}

/// One more at the end of a list.
pub fn push<T: Drop>(list: &mut Items<T>, item: T) -> Result<(), Stop>
    ensures { Pushed list.old item list.new result }
{
    match list.push(item) {
        Ok(()) => Ok(()),
        Err(_) => Err(Stop::Memory),
    }
}
