//! Values as a script writes them.

ghost use Rattle.std.specs.Prelude.{◌≡◌, ◌≤◌, ◌-ℤ◌, pos, map, IfOk, Some};
ghost use Rattle.std.specs.Str.{bytes_eq};
ghost use Rattle.term_core.specs.declared.value.Value.TheVariants.{Number};
ghost use Rattle.murphi_typed.specs.Names.{member_text};
ghost use Rattle.run_scripts.specs.Values.{plain_text, search, member, member_of, fitting, number_value, minus_value, truth_value, word_value, is_number_kind, one_value, over_of};
ghost use Rattle.run_scripts.specs.Usable.{can_range, can_write, takes_minus, are_writable};

use murphi_ast::text::Memory;
use murphi_ast::token::{Token, TokenKind};
use murphi_expressions::step::is_same;
use murphi_grammar::symbol::{Symbol, symbol_of};
use murphi_typed::protocol::Parameter;
use murphi_typed::types::{Kind, Simple};
use std::alloc::Global;
use term_core::value::Value;
use typed_names::values::add_member;

/// The greatest number that a token writes.
const GREATEST: u16 = 32767;

/// No kind has more members.
const MOST_MEMBERS: u16 = 256;

/// Whether a text is `T_k` for the member of this number, from 0.
fn is_numbered(alloc: Global, kind: &Kind, index: u16, text: &[u8]) -> Result<bool, Memory>
    ensures { IfOk result (λ b. b ≡ bytes_eq text.now (member_text (Some kind.now) index)) }
{
    let mut spelled: Vec<u8> = Vec::new(alloc);
    match add_member(alloc, &mut spelled, kind, u64::from(index)) {
        Ok(()) => {}
        Err(_) => return Err(Memory),
    }
    Ok(text == spelled.as_slice())
}

/// Whether a text names the member of this number, from 0.
fn is_named(alloc: Global, kind: &Kind, index: u16, text: &[u8]) -> Result<bool, Memory>
    ensures { IfOk result (λ b. b ≡ bytes_eq text.now (plain_text kind.now index)) }
{
    match kind {
        Kind::Listed { names } => {
            let names = names.as_slice();
            if index as usize >= names.len() {
                return Ok(text == b"".as_slice());
            }
            Ok(text == names[index as usize].bytes())
        }
        Kind::Scalarset { .. } => {
            let is = is_numbered(alloc, kind, index, text)?;
            Ok(is)
        }
    }
}

/// The first member of this name, below a number.
fn searched(alloc: Global, kind: &Kind, text: &[u8], bound: u16) -> Result<Option<u8>, Memory>
    requires { bound ≤ 256 }
    ensures { IfOk result (λ o. o ≡ search kind.now text.now 0 bound) }
{
    for k in 0..bound {
        let is = is_named(alloc, kind, k, text)?;
        if is {
            return Ok(Some(k as u8));
        }
    }
    Ok(None)
}

/// The member of this name, if there is one.
fn member_of(
    alloc: Global,
    kind: &Kind,
    number: u32,
    count: u16,
    text: &[u8],
) -> Result<Option<Value>, Memory>
    ensures { IfOk result (λ o. o ≡ member_of (Some kind.now) number count text.now) }
{
    let bound = count.min(MOST_MEMBERS);
    let found = searched(alloc, kind, text, bound)?;
    match found {
        None => Ok(None),
        Some(index) => Ok(Some(Value::Member {
            kind: number,
            index,
        })),
    }
}

/// The member of a kind that a name is, if it is one.
fn member(
    alloc: Global,
    kinds: &[Kind],
    number: u32,
    count: u16,
    text: &[u8],
) -> Result<Option<Value>, Memory>
    ensures { IfOk result (λ o. o ≡ member kinds.now number count text.now) }
{
    if number as usize >= kinds.len() {
        return Ok(None);
    }
    let found = member_of(alloc, &kinds[number as usize], number, count, text)?;
    Ok(found)
}

/// A value, where it is one of a type.
fn fitting(nodes: u32, over: Simple, value: Value) -> Option<Value>
    ensures { result ≡ fitting nodes over value }
{
    if over.has(nodes, value) {
        return Some(value);
    }
    None
}

/// A number as a value.
fn positive(number: u16) -> i16
    requires { number ≤ 32767 }
    ensures { result ≡ pos number }
{
    number as i16
}

/// A number behind `-` as a value.
fn negative(number: u16) -> i16
    requires { number ≤ 32767 }
    ensures { result ≡ pos 0 -ℤ pos number }
{
    0 - number as i16
}

/// A value that a number writes, where it is one of a type.
fn number_value(nodes: u32, over: Simple, value: Value, number: u16) -> Option<Value>
    ensures { result ≡ number_value nodes over value number }
{
    if number > GREATEST {
        return None;
    }
    fitting(nodes, over, value)
}

/// What a number writes of a range.
fn range_value(nodes: u32, over: Simple, number: u16) -> Option<Value>
    ensures { result ≡ number_value nodes over (Number (pos number)) number }
{
    if number > GREATEST {
        return None;
    }
    number_value(nodes, over, Value::Number(positive(number)), number)
}

/// What a number behind `-` writes of a type.
pub(crate) fn minus_value(nodes: u32, over: Simple, number: u16) -> Option<Value>
    ensures { result ≡ minus_value nodes over number }
{
    match over {
        Simple::Range { .. } => {
            if number > GREATEST {
                return None;
            }
            number_value(nodes, over, Value::Number(negative(number)), number)
        }
        _ => None,
    }
}

/// What a word writes of a kind.
fn word_value(
    alloc: Global,
    kinds: &[Kind],
    kind: u32,
    count: u16,
    token: &Token,
) -> Result<Option<Value>, Memory>
    ensures { IfOk result (λ o. o ≡ word_value kinds.now kind count token.now) }
{
    match token.kind {
        TokenKind::Word => {
            let found = member(alloc, kinds, kind, count, token.text.bytes())?;
            Ok(found)
        }
        _ => Ok(None),
    }
}

/// What a key word writes of the truth values.
fn truth_value(token: &Token) -> Option<Value>
    ensures { result ≡ truth_value token.now }
{
    let symbol = symbol_of(token);
    if is_same(symbol, Symbol::True) {
        return Some(Value::Truth(true));
    }
    if is_same(symbol, Symbol::False) {
        return Some(Value::Truth(false));
    }
    None
}

/// Whether a token is a number.
pub(crate) fn is_number(token: &Token) -> bool
    ensures { result ≡ is_number_kind token.now.kind }
{
    match token.kind {
        TokenKind::Number => true,
        _ => false,
    }
}

/// What one token writes of a type.
pub(crate) fn one_value(
    alloc: Global,
    kinds: &[Kind],
    nodes: u32,
    over: Simple,
    token: &Token,
) -> Result<Option<Value>, Memory>
    ensures { IfOk result (λ o. o ≡ one_value nodes kinds.now over token.now) }
{
    match over {
        Simple::Truth => Ok(truth_value(token)),
        Simple::Range { .. } => {
            if !is_number(token) {
                return Ok(None);
            }
            Ok(range_value(nodes, over, token.number))
        }
        Simple::Node => {
            if !is_number(token) {
                return Ok(None);
            }
            let node = u32::from(token.number);
            Ok(number_value(nodes, over, Value::Node(node), token.number))
        }
        Simple::Listed { kind, count } => {
            let found = word_value(alloc, kinds, kind, count, token)?;
            Ok(found)
        }
        Simple::Scalarset { kind, count } => {
            let found = word_value(alloc, kinds, kind, count, token)?;
            Ok(found)
        }
    }
}

/// Whether tokens write a number of a range: one that is at least -32,767.
fn can_range(low: i16, high: i16) -> bool
    ensures { result ≡ can_range low high }
{
    if low > high {
        return false;
    }
    high >= -32767
}

/// Whether tokens write a value of a type.
fn can_write(kinds: &[Kind], nodes: u32, over: Simple) -> bool
    ensures { result ≡ can_write nodes kinds.now over }
{
    match over {
        Simple::Truth => true,
        Simple::Range { low, high } => can_range(low, high),
        Simple::Listed { kind, count } => {
            if count == 0 {
                return false;
            }
            (kind as usize) < kinds.len()
        }
        Simple::Scalarset { kind, count } => {
            if count == 0 {
                return false;
            }
            (kind as usize) < kinds.len()
        }
        Simple::Node => nodes > 0,
    }
}

/// Whether some value of a type begins with `-`: a number that is not above 0, since `-0` is 0.
pub(crate) fn takes_minus(over: Simple) -> bool
    ensures { result ≡ takes_minus over }
{
    match over {
        Simple::Range { low, high } => {
            if low > 0 {
                return false;
            }
            can_range(low, high)
        }
        _ => false,
    }
}

/// Whether tokens write a value of the type of each parameter.
pub(crate) fn are_writable(kinds: &[Kind], nodes: u32, params: &[Parameter]) -> bool
    ensures { result ≡ are_writable nodes kinds.now (map over_of params.now) }
{
    for param in params {
        if !can_write(kinds, nodes, param.over) {
            return false;
        }
    }
    true
}
