//! Terms as text, operator first: `A` and `E` are the quantifiers, `m(v0,v1)` a read of `m` at two
//! variables.

use crate::values::{M, P};
use std::alloc::Global;
use term_core::term::Term;
use term_core::text::Memory;
use term_core::value::Value;

fn put(out: &mut Vec<u8>, byte: u8) -> Result<(), Memory> {
    out.push(byte)?;
    Ok(())
}

fn digit(number: u32) -> u8 {
    if number < 10 {
        b'0' + number as u8
    } else {
        b'#'
    }
}

fn known(value: Value) -> u8 {
    match value {
        Value::Truth(true) => b'T',
        Value::Truth(false) => b'F',
        _ => b'#',
    }
}

fn family(number: u32) -> u8 {
    if number == M {
        b'm'
    } else if number == P {
        b'p'
    } else {
        b'#'
    }
}

/// Adds the text of a term.
#[cycle(spell)]
fn spell(t: &Term, out: &mut Vec<u8>) -> Result<(), Memory> {
    match t {
        Term::Known(value) => put(out, known(*value)),
        Term::Var(number) => {
            put(out, b'v')?;
            put(out, digit(*number))
        }
        Term::Read { family: of, at } => spell_all(family(*of), at.as_slice(), out),
        Term::Not(body) => {
            put(out, b'!')?;
            spell(body.get(), out)
        }
        Term::And(parts) => spell_all(b'&', parts.as_slice(), out),
        Term::Or(parts) => spell_all(b'|', parts.as_slice(), out),
        Term::If { test, yes, no } => {
            put(out, b'?')?;
            spell(test.get(), out)?;
            put(out, b':')?;
            spell(yes.get(), out)?;
            put(out, b':')?;
            spell(no.get(), out)
        }
        Term::Same { left, right } => {
            put(out, b'=')?;
            spell(left.get(), out)?;
            spell(right.get(), out)
        }
        Term::Quantified { all, body } => {
            put(out, if *all { b'A' } else { b'E' })?;
            spell(body.get(), out)
        }
        _ => put(out, b'#'),
    }
}

/// Adds the text of an operator with parts.
#[cycle(spell)]
fn spell_all(operator: u8, parts: &[Term], out: &mut Vec<u8>) -> Result<(), Memory> {
    put(out, operator)?;
    put(out, b'(')?;
    for part in parts {
        spell(part, out)?;
        put(out, b',')?;
    }
    put(out, b')')
}

/// The text of a term.
pub fn spelled(alloc: Global, t: &Term) -> Result<Vec<u8>, Memory> {
    let mut out = Vec::new(alloc);
    spell(t, &mut out)?;
    Ok(out)
}

/// The texts of terms, a space after each.
pub fn spelled_all(alloc: Global, all: &[Term]) -> Result<Vec<u8>, Memory> {
    let mut out = Vec::new(alloc);
    for one in all {
        spell(one, &mut out)?;
        put(&mut out, b' ')?;
    }
    Ok(out)
}
