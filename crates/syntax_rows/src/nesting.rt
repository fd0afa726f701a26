//! Nesting: 100 open forms are read, and the token that opens the 101st is refused, for each kind of opener.
//! Each text repeats an opening; `invariant`, `startstate`, `rule`, `procedure` and `function` are one themselves.

use crate::answers::{Shape, Want, answer, text_of};
use std::test::Fail;

/// A shape, how often its opening may be repeated, and the place of the token that is refused with one more.
#[derive(Clone, Copy)]
struct Row<'a> {
    shape: Shape<'a>,
    most: usize,
    refused: (u32, u32),
}

fn shaped<'a>(parts: [&'a [u8]; 5], most: usize, column: u32) -> Row<'a> {
    let [before, opening, middle, closing, behind] = parts;
    Row {
        shape: Shape {
            before,
            opening,
            middle,
            closing,
            behind,
        },
        most,
        refused: (1, column),
    }
}

#[test]
fn openers(rt: HostRuntime) -> Result<(), Fail> {
    let rows: [Row; 22] = [
        shaped([b"invariant ", b"(", b"a", b")", b""], 99, 110),
        shaped([b"invariant ", b"!", b"a", b"", b""], 99, 110),
        shaped([b"invariant ", b"- ", b"1", b"", b""], 99, 209),
        shaped([b"invariant ", b"a[", b"1", b"]", b""], 99, 210),
        shaped([b"invariant ", b"f(", b"1", b")", b""], 99, 210),
        shaped([b"invariant ", b"a?b:", b"c", b"", b""], 99, 408),
        shaped([b"invariant ", b"a?", b"b", b":c", b""], 99, 210),
        shaped([b"invariant (", b"a->(", b"b", b")", b")"], 49, 209),
        shaped([b"invariant ", b"a->(", b"b", b")", b""], 49, 210),
        shaped(
            [b"invariant ", b"forall i:T do ", b"a", b" end", b""],
            99,
            1397,
        ),
        shaped(
            [b"invariant ", b"exists i:T do ", b"a", b" end", b""],
            99,
            1397,
        ),
        shaped(
            [
                b"invariant isundefined",
                b"(a[isundefined",
                b"(b)",
                b"])",
                b"",
            ],
            49,
            710,
        ),
        shaped(
            [
                b"type R : ",
                b"record f : ",
                b"T",
                b" end",
                b"; startstate end",
            ],
            100,
            1110,
        ),
        shaped(
            [
                b"type A : ",
                b"array[T] of ",
                b"T",
                b"",
                b"; startstate end",
            ],
            99,
            1203,
        ),
        shaped(
            [b"startstate ", b"if a then ", b"", b"end ", b"end"],
            99,
            1002,
        ),
        shaped(
            [b"startstate ", b"switch a case b:", b"", b" end", b" end"],
            99,
            1596,
        ),
        shaped(
            [b"startstate ", b"for i:T do ", b"", b"end ", b"end"],
            99,
            1101,
        ),
        shaped(
            [b"rule a ==> ", b"if a then ", b"", b"end ", b"end"],
            99,
            1002,
        ),
        shaped(
            [
                b"procedure P(); ",
                b"if a then ",
                b"",
                b"end ",
                b"end; startstate end",
            ],
            99,
            1006,
        ),
        shaped(
            [
                b"function F():T; ",
                b"if a then ",
                b"",
                b"end ",
                b"end; startstate end",
            ],
            99,
            1007,
        ),
        shaped([b"", b"ruleset i:T do ", b"", b"end ", b""], 100, 1501),
        shaped(
            [b"const A : ", b"(", b"1", b")", b"; startstate end"],
            100,
            111,
        ),
    ];
    for row in rows.as_slice() {
        let fits = text_of(rt.alloc(), &row.shape, row.most)?;
        let read = matches!(answer(rt.alloc(), &fits), Want::Tree(_, 1));
        assert!(rt; read);
        let passes = text_of(rt.alloc(), &row.shape, row.most.saturating_add(1))?;
        assert_eq!(rt;
            answer(rt.alloc(), &passes),
            Want::E15(row.refused.0, row.refused.1)
        );
    }
    Ok(())
}

/// What stands inside the open forms opens one more.
#[test]
fn last_words(rt: HostRuntime) -> Result<(), Fail> {
    let rows: [Row; 6] = [
        shaped(
            [b"", b"ruleset i:T do ", b"rule a ==> end ", b"end ", b""],
            99,
            1501,
        ),
        shaped(
            [b"", b"ruleset i:T do ", b"startstate end ", b"end ", b""],
            99,
            1501,
        ),
        shaped(
            [b"", b"ruleset i:T do ", b"invariant a ", b"end ", b""],
            99,
            1501,
        ),
        shaped(
            [
                b"type R : ",
                b"record f : ",
                b"array[T] of T",
                b" end",
                b"; startstate end",
            ],
            98,
            1104,
        ),
        shaped([b"invariant ", b"(", b"a[b]", b")", b""], 98, 111),
        shaped([b"invariant ", b"(", b"a ? b : c", b")", b""], 98, 112),
    ];
    for row in rows.as_slice() {
        let fits = text_of(rt.alloc(), &row.shape, row.most)?;
        let read = matches!(answer(rt.alloc(), &fits), Want::Tree(_, 1));
        assert!(rt; read);
        let passes = text_of(rt.alloc(), &row.shape, row.most.saturating_add(1))?;
        assert_eq!(rt;
            answer(rt.alloc(), &passes),
            Want::E15(row.refused.0, row.refused.1)
        );
    }
    Ok(())
}

/// `array` and the bracket behind it are two nestings, so the word itself is refused only inside 100 others.
#[test]
fn array_as_the_last(rt: HostRuntime) -> Result<(), Fail> {
    let shape = Shape {
        before: b"type R : ",
        opening: b"record f : ",
        middle: b"array[T] of T",
        closing: b" end",
        behind: b"; startstate end",
    };
    let text = text_of(rt.alloc(), &shape, 100)?;
    assert_eq!(rt; answer(rt.alloc(), &text), Want::E15(1, 1110));
    Ok(())
}
