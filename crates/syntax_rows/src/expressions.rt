//! Expressions, read from an index of the tokens of a text.

use murphi_expressions::expression::expression;
use murphi_expressions::refusal::SyntaxRefusal;
use murphi_lex::tokens;
use std::alloc::Global;
use std::test::Fail;

/// What is wanted: the index behind the expression, or the place where the text is refused.
#[derive(Debug, Clone, Copy, PartialEq, Eq)]
enum Want {
    Behind(usize),
    E04(u32, u32),
    E10(u32, u32),
    E15(u32, u32),
    NoTokens,
    Memory,
}

fn answer(alloc: Global, text: &[u8], at: usize) -> Want {
    let all = match tokens(alloc, text) {
        Ok(all) => all,
        Err(_) => return Want::NoTokens,
    };
    if at >= all.len() {
        return Want::NoTokens;
    }
    match expression(alloc, &all, at) {
        Ok((_, next)) => Want::Behind(next),
        Err(SyntaxRefusal::E04(at)) => Want::E04(at.line, at.column),
        Err(SyntaxRefusal::E10(at)) => Want::E10(at.line, at.column),
        Err(SyntaxRefusal::E15(at)) => Want::E15(at.line, at.column),
        Err(SyntaxRefusal::Memory) => Want::Memory,
    }
}

#[test]
fn rows(rt: HostRuntime) -> Result<(), Fail> {
    let rows: [(&[u8], usize, Want); 20] = [
        (b"a", 0, Want::Behind(1)),
        (b"a + b c", 0, Want::Behind(3)),
        (b"a + b c", 3, Want::Behind(4)),
        (b"a + b c", 1, Want::E04(1, 3)),
        (b"a + b c", 4, Want::E04(1, 8)),
        (b"", 0, Want::E04(1, 1)),
        (b"a ->", 0, Want::E04(1, 5)),
        (b"a -> b -> c", 0, Want::Behind(3)),
        (b"a = b = c", 0, Want::Behind(3)),
        (b"a ? b", 0, Want::E04(1, 6)),
        (b"a ? b : c : d", 0, Want::Behind(5)),
        (b"(a; b)", 0, Want::E04(1, 3)),
        (b") a", 0, Want::E04(1, 1)),
        (b") a", 1, Want::Behind(2)),
        (
            b"lemma L : forall i : T do a end; lemma",
            3,
            Want::Behind(10),
        ),
        (b"a while", 0, Want::E10(1, 3)),
        (b"a = b while c = ) real", 0, Want::E10(1, 7)),
        (b"x(1)(2)", 0, Want::Behind(4)),
        (b"!", 0, Want::E04(1, 2)),
        (b"end", 0, Want::E04(1, 1)),
    ];
    for (text, at, want) in rows.as_slice() {
        assert_eq!(rt; answer(rt.alloc(), text, *at), *want);
    }
    Ok(())
}

/// So many parentheses around a name.
#[test]
fn parentheses(rt: HostRuntime) -> Result<(), Fail> {
    let mut text = Vec::new(rt.alloc());
    for _ in 0..100 {
        text.push(b'(')?;
    }
    text.push(b'a')?;
    for _ in 0..100 {
        text.push(b')')?;
    }
    assert_eq!(rt; answer(rt.alloc(), &text, 0), Want::Behind(201));
    text.insert(0, b'(')?;
    assert_eq!(rt; answer(rt.alloc(), &text, 0), Want::E15(1, 101));
    assert_eq!(rt; answer(rt.alloc(), &text, 1), Want::Behind(202));
    Ok(())
}
