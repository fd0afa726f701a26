//! One token of a script after the other.

ghost use Rattle.std.specs.Prelude.{◌≡◌, ℕ, List, Some, Ok};
ghost use Rattle.run_scripts.specs.declared.phase.Phase.TheVariants.{Naming};
ghost use Rattle.run_scripts.specs.Reading.{IsReady, IsTable, Says, between_step, closing_step, fresh, give_step, line_ended, line_opened, next_param, opening_step, sign_step, step, step_in, steps, titles_in, value_step};
ghost use Rattle.run_scripts.specs.Values.{is_end_kind, is_quoted_kind, is_sign, is_word};
ghost use Rattle.run_scripts.specs.Scripts.{first_of, titles};

use crate::phase::{Halt, Phase, Progress};
use crate::refusal::Line;
use crate::titles::{Table, Titles, is_usable};
use crate::value::{is_number, minus_value, one_value, takes_minus};
use murphi_ast::token::{Span, Token, TokenKind};
use murphi_typed::protocol::Typed;
use murphi_typed::types::Simple;
use sqlite_items::Items;
use std::alloc::Global;
use term_core::value::Value;

impl Progress {
    /// Before the first token.
    pub(crate) fn fresh(alloc: Global) -> Progress
        ensures { result ≡ fresh }
    {
        Progress {
            phase: Phase::Opening,
            firing: false,
            which: 0,
            given: Items::new(alloc),
            lines: Items::new(alloc),
        }
    }
}

/// Whether a token is a word of these letters.
fn is_word(token: &Token, word: &[u8]) -> bool
    ensures { result ≡ is_word word.now token.now }
{
    match token.kind {
        TokenKind::Word => token.text.bytes() == word,
        _ => false,
    }
}

/// Whether a token is this sign.
fn is_sign(token: &Token, sign: &[u8]) -> bool
    ensures { result ≡ is_sign sign.now token.now }
{
    match token.kind {
        TokenKind::Sign => token.text.bytes() == sign,
        _ => false,
    }
}

/// Whether a token is a string.
fn is_string(token: &Token) -> bool
    ensures { result ≡ is_quoted_kind token.now.kind }
{
    match token.kind {
        TokenKind::Quoted => true,
        _ => false,
    }
}

/// Whether a token is the end of the text.
fn is_end(token: &Token) -> bool
    ensures { result ≡ is_end_kind token.now.kind }
{
    match token.kind {
        TokenKind::End => true,
        _ => false,
    }
}

/// The type of the next parameter.
fn next_param(typed: &Typed, p: &Progress) -> Option<Simple>
    ensures { result ≡ next_param typed.now p.now }
{
    let at = p.given.len();
    if p.firing {
        let rules = typed.rules.as_slice();
        if p.which >= rules.len() {
            return None;
        }
        let params = rules[p.which].params.as_slice();
        if at >= params.len() {
            return None;
        }
        return Some(params[at].over);
    }
    let starts = typed.starts.as_slice();
    if p.which >= starts.len() {
        return None;
    }
    let params = starts[p.which].params.as_slice();
    if at >= params.len() {
        return None;
    }
    Some(params[at].over)
}

/// Opens a line.
fn open_line(p: &mut Progress, firing: bool)
    ensures { p.new ≡ line_opened p.old firing }
{
    p.phase = Phase::Naming;
    p.firing = firing;
}

/// Where the first word comes, if some start state can be named.
fn opening(p: &mut Progress, can: bool, token: &Token) -> Result<(), Halt>
    ensures { Says (opening_step can p.old token.now) p.new result }
{
    if !is_word(token, b"start") {
        return Err(Halt::Wrong(token.at));
    }
    if !can {
        return Err(Halt::Wrong(token.at));
    }
    open_line(p, false);
    Ok(())
}

/// Where the next line comes, if some rule can be named, or the end.
fn between(p: &mut Progress, can: bool, token: &Token) -> Result<(), Halt>
    ensures { Says (between_step can p.old token.now) p.new result }
{
    if is_word(token, b"fire") {
        if can {
            open_line(p, true);
            return Ok(());
        }
    }
    if is_end(token) {
        p.phase = Phase::Done;
        return Ok(());
    }
    Err(Halt::Wrong(token.at))
}

/// The number of a title.
fn number_of(titles: &Titles, title: &[u8]) -> Option<usize>
    ensures { (names : List (List ℕ)) → IsTable names titles.now.first.entries → result ≡ first_of names title.now }
{
    match titles.first.get(title) {
        None => None,
        Some(number) => Some(*number),
    }
}

/// Where a title comes.
fn naming(
    typed: &Typed,
    nodes: u32,
    found: &Titles,
    p: &mut Progress,
    token: &Token,
) -> Result<(), Halt>
    requires { IsTable (titles typed.now p.old.firing) found.now.first.entries }
    ensures { Says (step_in nodes typed.now p.old token.now Naming) p.new result }
{
    if !is_string(token) {
        return Err(Halt::Wrong(token.at));
    }
    match number_of(found, token.text.bytes()) {
        None => Err(Halt::Wrong(token.at)),
        Some(which) => {
            if !is_usable(typed, nodes, p.firing, which) {
                return Err(Halt::Wrong(token.at));
            }
            p.phase = Phase::Giving;
            p.which = which;
            Ok(())
        }
    }
}

/// Ends a line.
fn end_line(alloc: Global, p: &mut Progress) -> Result<(), Halt>
    ensures { Says (Ok (line_ended p.old)) p.new result }
{
    let values = std::mem::replace(&mut p.given, Items::new(alloc));
    let which = p.which;
    match p.lines.push(Line { which, values }) {
        Ok(()) => {}
        Err(_) => return Err(Halt::Memory),
    }
    p.phase = Phase::Between;
    Ok(())
}

/// At a value, which begins at a place.
fn keep_value(p: &mut Progress, at: Span, value: Option<Value>) -> Result<(), Halt>
    ensures { Says (value_step p.old at value) p.new result }
{
    match value {
        None => Err(Halt::Wrong(at)),
        Some(value) => {
            match p.given.push(value) {
                Ok(()) => {}
                Err(_) => return Err(Halt::Memory),
            }
            p.phase = Phase::Giving;
            Ok(())
        }
    }
}

/// Where the end of a line comes.
fn closing(alloc: Global, p: &mut Progress, token: &Token) -> Result<(), Halt>
    ensures { Says (closing_step p.old token.now) p.new result }
{
    if !is_sign(token, b";") {
        return Err(Halt::Wrong(token.at));
    }
    end_line(alloc, p)
}

/// Where a value of a type comes.
fn giving(
    alloc: Global,
    typed: &Typed,
    nodes: u32,
    p: &mut Progress,
    token: &Token,
    over: Simple,
) -> Result<(), Halt>
    ensures { Says (give_step nodes typed.now p.old token.now (Some over)) p.new result }
{
    if is_sign(token, b"-") {
        if !takes_minus(over) {
            return Err(Halt::Wrong(token.at));
        }
        p.phase = Phase::Signed(token.at);
        return Ok(());
    }
    match one_value(alloc, typed.kinds.as_slice(), nodes, over, token) {
        Ok(value) => keep_value(p, token.at, value),
        Err(_) => Err(Halt::Memory),
    }
}

/// Where the number behind a `-` comes.
fn signed(nodes: u32, p: &mut Progress, at: Span, token: &Token, over: Simple) -> Result<(), Halt>
    ensures { Says (sign_step nodes p.old at token.now (Some over)) p.new result }
{
    if !is_number(token) {
        return Err(Halt::Wrong(token.at));
    }
    keep_value(p, at, minus_value(nodes, over, token.number))
}

/// The titles that a line names.
fn named_by(table: &Table, firing: bool) -> &Titles
    ensures { result.now ≡ titles_in table.now firing }
{
    if firing {
        return &table.rules;
    }
    &table.starts
}

/// Takes one token.
fn step(
    alloc: Global,
    typed: &Typed,
    nodes: u32,
    table: &Table,
    p: &mut Progress,
    token: &Token,
) -> Result<(), Halt>
    requires { IsReady nodes typed.now table.now }
    ensures { Says (step nodes typed.now p.old token.now) p.new result }
{
    match p.phase {
        Phase::Opening => opening(p, table.starts.opens, token),
        Phase::Naming => naming(typed, nodes, named_by(table, p.firing), p, token),
        Phase::Giving => match next_param(typed, p) {
            None => closing(alloc, p, token),
            Some(over) => giving(alloc, typed, nodes, p, token, over),
        },
        Phase::Signed(at) => match next_param(typed, p) {
            None => Err(Halt::Wrong(token.at)),
            Some(over) => signed(nodes, p, at, token, over),
        },
        Phase::Between => between(p, table.rules.opens, token),
        Phase::Done => Err(Halt::Wrong(token.at)),
    }
}

/// Takes all tokens.
pub(crate) fn steps(
    alloc: Global,
    typed: &Typed,
    nodes: u32,
    table: &Table,
    p: &mut Progress,
    tokens: &[Token],
) -> Result<(), Halt>
    requires { IsReady nodes typed.now table.now }
    ensures { Says (steps nodes typed.now p.old tokens.now) p.new result }
{
    for token in tokens {
        step(alloc, typed, nodes, table, p, token)?;
    }
    Ok(())
}
