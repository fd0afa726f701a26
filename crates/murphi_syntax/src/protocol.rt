//! Reading a whole text: its tokens, the tree that they spell, and what the grammar does not say.
ghost use Rattle.std.specs.Prelude.{◌≡◌, ◌≤◌, ℕ, List, length, drop, slice_get, IfOk, IfErr, MatchResult};
ghost use Rattle.std.specs.Option.{option_copied};
ghost use Rattle.murphi_ast.specs.declared.token.Span.{Span};
ghost use Rattle.murphi_ast.specs.declared.rule.Protocol.{Protocol};
ghost use Rattle.murphi_ast.specs.Flat.{first_other_word, SpellsFlat, IsBuilt, IsUnbuilt, IsNotFlat};
ghost use Rattle.murphi_syntax.specs.Protocols.{is_end, IsProtocol};
ghost use Rattle.murphi_syntax.specs.Scope.{named_in};
ghost use Rattle.murphi_syntax.specs.Stop.{IsStop, IsPlaced, IsNamed, IsNamedBy, TellsUnbuilt, TellsNotFlat, parsed_of, is_flat, ninth, Judged, SaysOf, FlatSays};

use crate::declaration::decls;
use crate::expr::{place_at, token_at};
use crate::item::items;
use crate::scope::{all_distinct, all_know, count_starts, declared_names};
use crate::step::ReadOf;
use murphi_ast::expr::Named;
use murphi_ast::rule::{Protocol, RuleDecl};
use murphi_ast::terminal::{Terminal, terminal_of};
use murphi_ast::text::Memory;
use murphi_ast::token::{Fault, Span, Token};
use murphi_lex::{Scanned, one_reading, places_are_of_the_text, scan};
use std::alloc::Global;

/// How many variables a flat protocol may have.
const GREATEST_VARIABLES: usize = 8;

/// Why a text is read as no flat protocol.
#[derive(Debug, Drop)]
pub enum FlatStop {
    /// The text has something that is not built yet: a word that no flat protocol has, or a ninth
    /// variable. The place is that of the first such word, or else of the ninth name.
    NotBuilt { at: Span },
    /// The bytes spell no flat protocol. The place is that of a token that does not fit, or of the end: it is
    /// behind some front of the bytes.
    NotFlat { at: Span },
    /// There was no memory.
    Memory,
}

/// The tree that tokens spell, or the place of one that does not fit.
#[derive(Drop)]
pub enum Parsed {
    Tree(Protocol),
    NoTree(Span),
}

/// Whether the last token of a text stands at an index, and nothing behind it.
#[tactic(auto, using(crate::proofs::Places::ends))]
fn is_end(tokens: &[Token], at: usize) -> bool
    requires { at ≤ length tokens.now }
    ensures { result ≡ is_end (drop at tokens.now) }
{
    match token_at(tokens, at) {
        None => false,
        Some(token) => match terminal_of(token) {
            Terminal::EndOfText => match token_at(tokens, at + 1) {
                None => true,
                Some(_) => false,
            },
            _ => false,
        },
    }
}

/// The tree that tokens spell.
#[tactic(auto, using(crate::proofs::DeclArms::protocol_arms))]
pub fn parse(alloc: Global, tokens: &[Token]) -> Result<Parsed, Memory>
    ensures { IfOk result (λ a. IsProtocol tokens.now (parsed_of a)) }
{
    match decls(alloc, tokens, 0)? {
        ReadOf::Stop(place) => Ok(Parsed::NoTree(place)),
        ReadOf::Got { tree: decls, next } => match items(alloc, tokens, next)? {
            ReadOf::Stop(place) => Ok(Parsed::NoTree(place)),
            ReadOf::Got { tree: rules, next } => {
                if !is_end(tokens, next) {
                    return Ok(Parsed::NoTree(place_at(tokens, next)));
                }
                Ok(Parsed::Tree(Protocol { decls, rules }))
            }
        },
    }
}

/// The place of the first word that no flat protocol has.
fn first_other_word(tokens: &[Token]) -> Option<Span>
    ensures { result ≡ first_other_word tokens.now }
{
    for token in tokens {
        if let Terminal::OtherWord = terminal_of(token) {
            return Some(token.at);
        }
    }
    None
}

/// What the grammar does not say of a flat protocol.
fn is_flat(names: &[Named], rules: &[RuleDecl]) -> bool
    ensures { result ≡ is_flat names.now rules.now }
{
    if count_starts(rules) != 1 {
        return false;
    }
    if !all_distinct(names) {
        return false;
    }
    all_know(names, rules)
}

/// The place of the ninth of names.
fn ninth(names: &[Named]) -> Option<Span>
    ensures { result ≡ ninth names.now }
{
    match name_at(names, GREATEST_VARIABLES) {
        None => None,
        Some(name) => Some(name.at),
    }
}

fn name_at(names: &[Named], at: usize) -> Option<&Named>
    ensures { option_copied result ≡ slice_get names.now at }
{
    names.get(at)
}

/// A tree that follows the grammar and declares these names, if it is a flat protocol of at most
/// eight variables. `end` is the place of the last token.
#[tactic(auto, using(crate::proofs::FlatLaws::judging))]
fn judged_by(p: Protocol, names: &[Named], end: Span) -> Result<Protocol, FlatStop>
    requires { names.now ≡ named_in p.decls }
    ensures { Judged p result }
{
    if !is_flat(names, p.rules.as_slice()) {
        return Err(FlatStop::NotFlat { at: end });
    }
    match ninth(names) {
        Some(at) => Err(FlatStop::NotBuilt { at }),
        None => Ok(p),
    }
}

/// A tree that follows the grammar, if it is a flat protocol of at most eight variables.
#[tactic(auto, using(crate::proofs::FlatLaws::judging))]
fn judged(alloc: Global, p: Protocol, end: Span) -> Result<Protocol, FlatStop>
    ensures { Judged p result }
{
    match declared_names(alloc, p.decls.as_slice()) {
        Ok(names) => judged_by(p, names.as_slice(), end),
        Err(_) => Err(FlatStop::Memory),
    }
}

/// The flat protocol that tokens spell, of at most eight variables.
#[tactic(auto, using(crate::proofs::FlatLaws::saying))]
fn tree_of(alloc: Global, tokens: &[Token]) -> Result<Protocol, FlatStop>
    ensures { SaysOf tokens.now result }
{
    match parse(alloc, tokens) {
        Err(_) => Err(FlatStop::Memory),
        Ok(Parsed::NoTree(at)) => Err(FlatStop::NotFlat { at }),
        Ok(Parsed::Tree(p)) => judged(alloc, p, end_place(tokens)),
    }
}

/// The place of the last token.
fn end_place(tokens: &[Token]) -> Span {
    match tokens {
        [.., last] => last.at,
        [] => Span { line: 1, column: 1 },
    }
}

/// A place, if one of the tokens stands there; else that of the last. That the forms name places of
/// tokens is tested here, and not proved of each of them.
#[tactic(auto, using(crate::proofs::FlatLaws::naming))]
fn token_place(tokens: &[Token], at: Span) -> Span
    ensures { IsNamed tokens.now result }
{
    let mut place = Span { line: 1, column: 1 };
    for token in tokens {
        place = token.at;
        if place.line == at.line && place.column == at.column {
            return place;
        }
    }
    place
}

/// An answer of these tokens, with a place of one of them.
#[tactic(auto, using(crate::proofs::FlatLaws::naming))]
fn named(tokens: &[Token], answer: Result<Protocol, FlatStop>) -> Result<Protocol, FlatStop>
    ensures says { SaysOf tokens.now answer → SaysOf tokens.now result }
    ensures named { IfErr result (λ e. IsNamedBy tokens.now e) }
{
    match answer {
        Ok(p) => Ok(p),
        Err(FlatStop::NotBuilt { at }) => Err(FlatStop::NotBuilt { at }),
        Err(FlatStop::NotFlat { at }) => {
            let at = token_place(tokens, at);
            Err(FlatStop::NotFlat { at })
        }
        Err(FlatStop::Memory) => Err(FlatStop::Memory),
    }
}

/// The flat protocol that the bytes spell, with what it is answered by.
#[tactic(auto, using(crate::proofs::FlatLaws::flats))]
fn read(alloc: Global, bytes: &[u8]) -> Result<Protocol, FlatStop>
    ensures says { FlatSays bytes.now result }
    ensures placed { IfErr result (λ e. IsPlaced bytes.now e) }
{
    places_are_of_the_text();
    let Scanned { tokens, fault } = match scan(alloc, bytes) {
        Ok(scanned) => scanned,
        Err(_) => return Err(FlatStop::Memory),
    };
    match first_other_word(&tokens) {
        Some(at) => Err(FlatStop::NotBuilt { at }),
        None => match fault {
            Some(Fault::E02(at)) => Err(FlatStop::NotFlat { at }),
            Some(Fault::E03(at)) => Err(FlatStop::NotFlat { at }),
            None => {
                let answer = tree_of(alloc, &tokens);
                named(&tokens, answer)
            }
        },
    }
}

/// The flat protocol that the bytes spell, of at most eight variables. Of what is not built and
/// what is not flat, a word that is not built comes first.
pub fn flat(alloc: Global, bytes: &[u8]) -> Result<Protocol, FlatStop>
    ensures spelled { IfOk result (λ p. IsBuilt bytes.now p) }
    ensures stopped { IfErr result (λ e. IsStop bytes.now e) }
    ensures placed { IfErr result (λ e. IsPlaced bytes.now e) }

    // What holds of the bytes is answered, unless memory runs out.
    ensures only { (p : Protocol) → IsBuilt bytes.now p → MatchResult result (λ q. q ≡ p) (λ e. e ≡ FlatStop.Memory) }
    ensures unbuilt { (at : Span) → IsUnbuilt bytes.now at → MatchResult result (λ _. ⊥) (λ e. TellsUnbuilt e at) }
    ensures not_flat { IsNotFlat bytes.now → MatchResult result (λ _. ⊥) (λ e. TellsNotFlat e) }
{
    one_reading();
    read(alloc, bytes)
}

/// No bytes spell two flat protocols.
pub fn one_flat()
    ensures { (bytes : List ℕ) (p q : Protocol) → SpellsFlat bytes p → SpellsFlat bytes q → p ≡ q }
{
    one_reading();
}
