//! Weights of statements, as the weight of a procedure's body beside the declarations of the world. A statement,
//! a designator and an expression count one each; a designator that is read counts once.

use crate::answers::{WEIGHED, typed_row};
use std::alloc::Global;
use std::test::Fail;

/// The weight of the last routine's body.
fn weight(alloc: Global, row: &[u8]) -> Option<u64> {
    match typed_row(alloc, &WEIGHED, row) {
        Ok(protocol) => match protocol.weights.as_slice() {
            [.., last] => Some(*last),
            [] => None,
        },
        Err(_) => None,
    }
}

/// The first row whose body weighs something else, if there is one.
fn wrong(alloc: Global, rows: &[(&[u8], u64)]) -> Option<usize> {
    for (i, (text, want)) in rows.iter().enumerate() {
        if weight(alloc, text) != Some(*want) {
            return Some(i);
        }
    }
    None
}

/// Designators and operators.
const OPERATORS: [(&[u8], u64); 21] = [
    (b"", 0),
    (b"x := 1", 3),
    (b"x := y", 3),
    (b"x := ((y))", 3),
    (b"r := q", 3),
    (b"x := C", 3),
    (b"r.f := b", 3),
    (b"a[0] := b", 4),
    (b"m[A].f := b", 4),
    (b"b := a[x]", 4),
    (b"a[x + 1] := b", 6),
    (b"b := !c", 4),
    (b"x := -y", 4),
    (b"b := b & c & true", 6),
    (b"b := b & c | true", 7),
    (b"b := x = 1", 5),
    (b"b := b -> c", 5),
    (b"b := b ? c : true", 6),
    (b"b := isundefined(x)", 4),
    (b"b := isundefined(a[x])", 5),
    (b"b := isundefined(C)", 4),
];

#[test]
fn operators(rt: HostRuntime) -> Result<(), Fail> {
    assert_eq!(rt; wrong(rt.alloc(), &OPERATORS), None);
    Ok(())
}

/// Quantifiers count each value of a finite type, and nodes once; a call adds the weight of the body.
const CALLS_AND_QUANTIFIERS: [(&[u8], u64); 16] = [
    (b"b := forall i : 0..9 do b end", 13),
    (b"b := forall i : 0..9 do i = 1 end", 33),
    (b"b := exists i : E do e = i end", 9),
    (b"b := exists i : boolean do i end", 5),
    (b"b := exists i : S do i = s end", 9),
    (b"b := exists i : NODE do w[i] end", 5),
    (
        b"b := forall i : NODE do forall j : NODE do i = j end end",
        7,
    ),
    (b"b := forall i := 1 to 1 + 1 do true end", 5),
    (b"b := F(x)", 8),
    (b"x := K()", 5),
    (b"b := F(K())", 10),
    (b"b := N()", 7),
    (b"P(b)", 5),
    (b"P(a[x])", 6),
    (b"Q(x)", 5),
    (b"O(r, 1)", 3),
];

#[test]
fn calls_and_quantifiers(rt: HostRuntime) -> Result<(), Fail> {
    assert_eq!(rt; wrong(rt.alloc(), &CALLS_AND_QUANTIFIERS), None);
    Ok(())
}

/// Statements; weights stop at the greatest u64.
const STATEMENTS: [(&[u8], u64); 21] = [
    (b"if b then end", 2),
    (b"if b then x := 1 end", 5),
    (
        b"if b then x := 1 elsif c then y := 1 else error \"e\" end",
        10,
    ),
    (b"switch x case 1, y : b := c; case z : else c := b end", 11),
    (b"for i : 0..9 do x := i end", 31),
    (b"for i : 0..9 do x := i; y := i end", 61),
    (b"for i : NODE do w[i] := b end", 5),
    (b"for i : NODE do for j : E do error \"\" end end", 4),
    (b"for i := 0 to 1 + 2 do end", 1),
    (b"clear x", 2),
    (b"undefine a[0]", 3),
    (b"error \"e\"", 1),
    (b"assert b", 2),
    (b"assert b \"e\"", 2),
    (b"put \"e\"", 1),
    (b"put x = 1", 4),
    (b"return", 1),
    (b";; x := 1;;", 3),
    (b"x := 1; y := 1", 6),
    (
        b"for i : 0..255 do for i : 0..255 do for i : 0..255 do for i : 0..255 do for i : 0..255 do for i : 0..255 do for i : 0..255 do error \"\" end end end end end end end",
        72_340_172_838_076_673,
    ),
    (
        b"for i : 0..255 do for i : 0..255 do for i : 0..255 do for i : 0..255 do for i : 0..255 do for i : 0..255 do for i : 0..255 do for i : 0..255 do error \"\" end end end end end end end end",
        u64::MAX,
    ),
];

#[test]
fn statements(rt: HostRuntime) -> Result<(), Fail> {
    assert_eq!(rt; wrong(rt.alloc(), &STATEMENTS), None);
    Ok(())
}
