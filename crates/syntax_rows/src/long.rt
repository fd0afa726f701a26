//! Long lists: each is read in a loop, so that 100,000 parts need no deeper a stack than one. Compiled, a text is
//! read in a tenth of a second; `rt try --test` wants `--seconds 300` for them.

use crate::answers::{Shape, Want, answer, text_of};
use std::alloc::{AllocError, Global};
use std::test::Fail;

fn list<'a>(before: &'a [u8], part: &'a [u8], behind: &'a [u8]) -> Shape<'a> {
    Shape {
        before,
        opening: part,
        middle: b"",
        closing: b"",
        behind,
    }
}

/// Whether each shape with its part so often is answered as it should be.
fn all_are(alloc: Global, rows: &[(Shape, Want)]) -> Result<bool, AllocError> {
    for (shape, want) in rows {
        let text = text_of(alloc, shape, 100_000)?;
        if answer(alloc, &text) != *want {
            return Ok(false);
        }
    }
    Ok(true)
}

#[test]
fn statements_and_items(rt: HostRuntime) -> Result<(), Fail> {
    let rows: [(Shape, Want); 5] = [
        (list(b"startstate ", b"a:=b;", b"end"), Want::Tree(0, 1)),
        (list(b"startstate ", b";", b"end"), Want::Tree(0, 1)),
        (list(b"", b"invariant a;", b""), Want::Tree(0, 100_000)),
        (list(b"startstate end", b";", b""), Want::Tree(0, 1)),
        (list(b"", b";", b"startstate end"), Want::Tree(0, 1)),
    ];
    assert!(rt; all_are(rt.alloc(), rows.as_slice())?);
    Ok(())
}

#[test]
fn operands(rt: HostRuntime) -> Result<(), Fail> {
    let rows: [(Shape, Want); 4] = [
        (list(b"invariant a", b"|b", b""), Want::Tree(0, 1)),
        (list(b"invariant a", b"&b", b""), Want::Tree(0, 1)),
        (list(b"invariant a", b"+b", b""), Want::Tree(0, 1)),
        (list(b"invariant a", b"%b", b""), Want::Tree(0, 1)),
    ];
    assert!(rt; all_are(rt.alloc(), rows.as_slice())?);
    Ok(())
}

#[test]
fn names_and_selectors(rt: HostRuntime) -> Result<(), Fail> {
    let rows: [(Shape, Want); 4] = [
        (list(b"invariant a", b".b", b""), Want::Tree(0, 1)),
        (list(b"invariant a", b"[1]", b""), Want::Tree(0, 1)),
        (list(b"invariant f(a", b",b", b")"), Want::Tree(0, 1)),
        (
            list(b"var a", b",b", b":T; startstate end"),
            Want::Tree(1, 1),
        ),
    ];
    assert!(rt; all_are(rt.alloc(), rows.as_slice())?);
    Ok(())
}

#[test]
fn declarations(rt: HostRuntime) -> Result<(), Fail> {
    let rows: [(Shape, Want); 4] = [
        (
            list(b"var ", b"a:T;", b"startstate end"),
            Want::Tree(100_000, 1),
        ),
        (
            list(b"const ", b"a:1;", b"startstate end"),
            Want::Tree(100_000, 1),
        ),
        (
            list(b"type ", b"a:T;", b"startstate end"),
            Want::Tree(100_000, 1),
        ),
        (
            list(b"", b"var a:T;", b"startstate end"),
            Want::Tree(100_000, 1),
        ),
    ];
    assert!(rt; all_are(rt.alloc(), rows.as_slice())?);
    Ok(())
}

#[test]
fn arms_and_cases(rt: HostRuntime) -> Result<(), Fail> {
    let rows: [(Shape, Want); 4] = [
        (
            list(b"type R : record ", b"a:T;", b"end; startstate end"),
            Want::Tree(1, 1),
        ),
        (
            list(b"startstate if a then ", b"elsif b then ", b"end end"),
            Want::Tree(0, 1),
        ),
        (
            list(b"startstate switch a ", b"case b:", b"end end"),
            Want::Tree(0, 1),
        ),
        (
            list(b"startstate switch a case b", b",c", b": end end"),
            Want::Tree(0, 1),
        ),
    ];
    assert!(rt; all_are(rt.alloc(), rows.as_slice())?);
    Ok(())
}

#[test]
fn binds_and_formals(rt: HostRuntime) -> Result<(), Fail> {
    let rows: [(Shape, Want); 3] = [
        (list(b"ruleset i:T", b";j:T", b" do end"), Want::Tree(0, 1)),
        (
            list(b"procedure P(a:T", b";b:T", b"); end; startstate end"),
            Want::Tree(1, 1),
        ),
        (list(b"rule ", b"var a:T;", b"begin end"), Want::Tree(0, 1)),
    ];
    assert!(rt; all_are(rt.alloc(), rows.as_slice())?);
    Ok(())
}
