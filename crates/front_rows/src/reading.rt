//! Rows: texts, and what is read of each. Every place is counted by hand.
use murphi_syntax::{FlatStop, flat};
use std::alloc::{AllocError, Global};
use std::test::Fail;

/// What is wanted of a text: how many declarations and items it has, or the place of its stop.
#[derive(Debug, Clone, Copy, PartialEq, Eq)]
enum Want {
    Tree(usize, usize),
    NotBuilt(u32, u32),
    NotFlat(u32, u32),
    Memory,
}

fn answer(alloc: Global, text: &[u8]) -> Want {
    match flat(alloc, text) {
        Ok(p) => Want::Tree(p.decls.len(), p.rules.len()),
        Err(FlatStop::NotBuilt { at }) => Want::NotBuilt(at.line, at.column),
        Err(FlatStop::NotFlat { at }) => Want::NotFlat(at.line, at.column),
        Err(FlatStop::Memory) => Want::Memory,
    }
}

/// An invariant over one variable, in so many parentheses.
fn parentheses(alloc: Global, count: usize) -> Result<Vec<u8>, AllocError> {
    let mut text = Vec::from_slice(
        alloc,
        b"var a : boolean; startstate end; invariant ".as_slice(),
    )?;
    for _ in 0..count {
        text.push(b'(')?;
    }
    text.push(b'a')?;
    for _ in 0..count {
        text.push(b')')?;
    }
    Ok(text)
}

const FLAT: &[u8] = b"var a, b : boolean;
startstate \"Init\" a := true; b := false; end;
rule \"Move\" a ==> a := false; b := true; end;
rule \"Back\" b ==> a := true; b := false; end;
invariant \"One\" a != b;
";

#[test]
fn rows(rt: HostRuntime) -> Result<(), Fail> {
    let rows: [(&[u8], Want); 26] = [
        (FLAT, Want::Tree(1, 4)),
        (b"", Want::NotFlat(1, 1)),
        (b"const", Want::NotBuilt(1, 1)),
        (b"startstate end", Want::Tree(0, 1)),
        (b"STARTSTATE EndStartState", Want::Tree(0, 1)),
        (b"startstate end;;", Want::Tree(0, 1)),
        (b"startstate end endrule", Want::NotFlat(1, 16)),
        (b"startstate endrule", Want::NotFlat(1, 12)),
        (b"startstate end; startstate end", Want::NotFlat(1, 31)),
        (b"var a : boolean;", Want::NotFlat(1, 17)),
        (b"var startstate end", Want::Tree(0, 1)),
        (
            b"var a : boolean; var b : boolean; startstate end",
            Want::Tree(2, 1),
        ),
        (b"var a, a : boolean; startstate end", Want::NotFlat(1, 35)),
        (b"startstate a := true; end", Want::NotFlat(1, 26)),
        (b"var a : boolean startstate end", Want::NotFlat(1, 17)),
        (
            b"var a : boolean; startstate end; invariant a -> a -> a",
            Want::NotFlat(1, 51),
        ),
        (
            b"var a : boolean; startstate end; invariant a = a = a",
            Want::NotFlat(1, 50),
        ),
        (
            b"var a : boolean; startstate end; invariant !a & (a | a) -> a = a",
            Want::Tree(1, 2),
        ),
        (
            b"var a : boolean; startstate end; rule ! a ==> a := a; end",
            Want::Tree(1, 2),
        ),
        (
            b"var a : boolean; startstate end; rule a := a; end",
            Want::NotFlat(1, 41),
        ),
        (
            b"var a,b,c,d,e,f,g,h : boolean; startstate end",
            Want::Tree(1, 1),
        ),
        (
            b"var a,b,c,d,e,f,g,h,i : boolean; startstate end",
            Want::NotBuilt(1, 21),
        ),
        (b"startstate \"while\" end -- const", Want::Tree(0, 1)),
        (b"startstate @ while end", Want::NotFlat(1, 12)),
        (b"startstate While @ end", Want::NotBuilt(1, 12)),
        (b"startstate end invariant", Want::NotFlat(1, 16)),
    ];
    for (text, wanted) in rows {
        assert_eq!(rt; answer(rt.alloc(), text), wanted);
    }
    let most = parentheses(rt.alloc(), 99)?;
    assert_eq!(rt; answer(rt.alloc(), &most), Want::Tree(1, 2));
    let more = parentheses(rt.alloc(), 100)?;
    let stopped = matches!(answer(rt.alloc(), &more), Want::NotFlat(1, _));
    assert!(rt; stopped);
    Ok(())
}
