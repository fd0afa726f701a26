//! Every prefix of a text: where the tokens before a cut are no protocol, each of them fits, and the end of the
//! text is refused, which then stands where the next token stood.

use crate::answers::{Want, answer};
use crate::samples::{FORMS, GERMAN, MUTEX};
use murphi_lex::{Span, tokens};
use std::alloc::Global;
use std::test::Fail;

/// The bytes of a text before a place.
fn before(text: &[u8], at: Span) -> &[u8] {
    let mut line = 1;
    let mut column = 1;
    for i in 0..text.len() {
        if line == at.line && column == at.column {
            return &text[..i];
        }
        if text[i] == b'\n' {
            line = line.saturating_add(1);
            column = 1;
        } else {
            column = column.saturating_add(1);
        }
    }
    text
}

/// How many of the prefixes of a text that end on one of some lines are protocols, or none where one is refused
/// elsewhere than at its end.
fn protocols(alloc: Global, text: &[u8], from: u32, to: u32) -> Option<u32> {
    let mut read: u32 = 0;
    let all = match tokens(alloc, text) {
        Ok(all) => all,
        Err(_) => return None,
    };
    for token in &all {
        if token.at.line < from || token.at.line > to {
            continue;
        }
        match answer(alloc, before(text, token.at)) {
            Want::Tree(_, _) => read = read.saturating_add(1),
            Want::E04(line, column) => {
                if line != token.at.line || column != token.at.column {
                    return None;
                }
            }
            _ => return None,
        }
    }
    Some(read)
}

/// The lock: a prefix is a protocol behind the `end` of its start state and of each of its two rulesets, with
/// and without the semicolon there.
#[test]
fn mutex(rt: HostRuntime) -> Result<(), Fail> {
    assert_eq!(rt; protocols(rt.alloc(), MUTEX, 1, 1000), Some(6));
    Ok(())
}

/// German's protocol, by parts: a prefix is a protocol behind the `end` of each of its five rulesets, with and
/// without the semicolon, and in its one invariant `ExGntd = false -> MemData = AuxData` behind each operand and
/// behind its semicolon. A prefix is counted at the token behind it.
#[test]
fn german_declared(rt: HostRuntime) -> Result<(), Fail> {
    assert_eq!(rt; protocols(rt.alloc(), GERMAN, 1, 24), Some(1));
    Ok(())
}

#[test]
fn german_started(rt: HostRuntime) -> Result<(), Fail> {
    assert_eq!(rt; protocols(rt.alloc(), GERMAN, 25, 40), Some(3));
    Ok(())
}

#[test]
fn german_requests(rt: HostRuntime) -> Result<(), Fail> {
    assert_eq!(rt; protocols(rt.alloc(), GERMAN, 41, 50), Some(0));
    Ok(())
}

#[test]
fn german_grants(rt: HostRuntime) -> Result<(), Fail> {
    assert_eq!(rt; protocols(rt.alloc(), GERMAN, 51, 60), Some(0));
    Ok(())
}

#[test]
fn german_claimed(rt: HostRuntime) -> Result<(), Fail> {
    assert_eq!(rt; protocols(rt.alloc(), GERMAN, 61, 1000), Some(11));
    Ok(())
}

/// All forms: only the whole.
#[test]
fn forms(rt: HostRuntime) -> Result<(), Fail> {
    assert_eq!(rt; protocols(rt.alloc(), FORMS, 1, 1000), Some(1));
    assert_eq!(rt; answer(rt.alloc(), FORMS), Want::Tree(9, 1));
    Ok(())
}
