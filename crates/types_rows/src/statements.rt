//! Statements of rules, procedures and functions, beside the declarations of the world.

use crate::answers::{DECLARED, IN_FUNCTION, IN_PROCEDURE, IN_RULE, Want, wrong};
use std::test::Fail;

/// Assignments.
const ASSIGNMENTS: [(&[u8], Want); 21] = [
    (
        b"x := 1; x := z; z := x; e := A; n := j; b := x = 1; a[x] := b; w[j] := w[n]; r.f := b",
        Want::Typed,
    ),
    (b"r := q; m[A] := r; r := m[e]; a := a", Want::Typed),
    (b"x := true", Want::E07(6)),
    (b"b := 1", Want::E07(6)),
    (b"e := s", Want::E07(6)),
    (b"n := s", Want::E07(6)),
    (b"r := b", Want::E07(6)),
    (b"b := r", Want::E07(6)),
    (b"r := a", Want::E07(6)),
    (b"x := P", Want::E07(6)),
    (b"x := T", Want::E07(6)),
    (b"x := 1 + b", Want::E07(10)),
    (b"u := 1", Want::E05(1)),
    (b"r.h := 1", Want::E05(3)),
    (b"x := u", Want::E05(6)),
    (b"x.f := 1", Want::E07(1)),
    (b"a[b] := b", Want::E07(3)),
    (b"T := 1", Want::E07(1)),
    (b"P := 1", Want::E07(1)),
    (b"w[1] := b", Want::E07(3)),
    (b"r := F(1)", Want::E07(6)),
];

#[test]
fn assignments(rt: HostRuntime) -> Result<(), Fail> {
    assert_eq!(rt; wrong(rt.alloc(), &IN_RULE, &ASSIGNMENTS), None);
    Ok(())
}

/// Records with the same fields in another order are the same type.
const SAME_TYPES: [(&[u8], Want); 9] = [
    (
        b"var v : record g : 0..3; f : boolean end; begin v := r; r := v; O(v, 1)",
        Want::Typed,
    ),
    (
        b"var v : record g : 0..2; f : boolean end; begin v := r",
        Want::E07(54),
    ),
    (
        b"var v : record g : 0..3; h : boolean end; begin v := r",
        Want::E07(54),
    ),
    (
        b"var v : record f : boolean end; begin r := v",
        Want::E07(44),
    ),
    (
        b"var v : record f : boolean; g : 0..3; h : boolean end; begin v := r",
        Want::E07(67),
    ),
    (
        b"var v : record g : T; f : boolean end; begin v := r",
        Want::Typed,
    ),
    (
        b"var v : array [T] of R; w : array [0..3] of record g : 0..3; f : boolean end; begin v := w; w[0] := v[1]",
        Want::Typed,
    ),
    (
        b"var v : array [E] of R; w : array [0..1] of R; begin v := w",
        Want::E07(59),
    ),
    (b"assert isundefined(i) | isundefined(j)", Want::Typed),
];

#[test]
fn same_types(rt: HostRuntime) -> Result<(), Fail> {
    assert_eq!(rt; wrong(rt.alloc(), &IN_RULE, &SAME_TYPES), None);
    Ok(())
}

/// What may not be written; at one place the least code.
const NOT_WRITTEN: [(&[u8], Want); 16] = [
    (b"C := 1", Want::E14(1)),
    (b"A := B", Want::E14(1)),
    (b"i := 0", Want::E14(1)),
    (b"j := n", Want::E14(1)),
    (b"for k : 0..1 do k := 1 end", Want::E14(17)),
    (b"clear C", Want::E14(7)),
    (b"undefine A", Want::E14(10)),
    (b"clear i", Want::E14(7)),
    (b"undefine j", Want::E14(10)),
    (b"Q(C)", Want::E14(3)),
    (b"Q(i)", Want::E14(3)),
    (b"P(C)", Want::E07(3)),
    (b"C.f := 1", Want::E07(1)),
    (b"A[0] := 1", Want::E07(1)),
    (b"C := u", Want::E14(1)),
    (b"x := b; C := 1", Want::E07(6)),
];

#[test]
fn not_written(rt: HostRuntime) -> Result<(), Fail> {
    assert_eq!(rt; wrong(rt.alloc(), &IN_RULE, &NOT_WRITTEN), None);
    Ok(())
}

/// Choices and loops.
const CHOICES: [(&[u8], Want); 23] = [
    (
        b"if b then x := 1 elsif c then else y := 1 end; if b then end",
        Want::Typed,
    ),
    (b"if x then end", Want::E07(4)),
    (b"if b then elsif 1 then end", Want::E07(17)),
    (b"if b then x := b end", Want::E07(16)),
    (b"if b then elsif c then x := b end", Want::E07(29)),
    (b"if b then else x := b end", Want::E07(21)),
    (
        b"switch x case 1, z : b := c; case y : else c := b end",
        Want::Typed,
    ),
    (
        b"switch e case A : case B : end; switch b end; switch n case j : end",
        Want::Typed,
    ),
    (b"switch r end", Want::E07(8)),
    (b"switch a case 1 : end", Want::E07(8)),
    (b"switch x case 1, b : end", Want::E07(18)),
    (b"switch e case A : case 1 : end", Want::E07(24)),
    (b"switch n case s : end", Want::E07(15)),
    (b"switch x case r : end", Want::E07(15)),
    (b"switch x case 1 : b := 1 end", Want::E07(24)),
    (b"switch x else b := 1 end", Want::E07(20)),
    (
        b"for k : E do e := k end; for k : NODE do w[k] := b end; for k := 1 to C do x := k end",
        Want::Typed,
    ),
    (b"for k : R do end", Want::E07(9)),
    (b"for k : 0..1 do b := k end", Want::E07(22)),
    (b"for k : 0..1 do end; x := k", Want::E05(27)),
    (b"for k := 2 to 1 do end", Want::E08(10)),
    (b"for k := 0 to x do end", Want::E08(15)),
    (b"for k : 0..k do end", Want::E05(12)),
];

#[test]
fn choices(rt: HostRuntime) -> Result<(), Fail> {
    assert_eq!(rt; wrong(rt.alloc(), &IN_RULE, &CHOICES), None);
    Ok(())
}

/// Single words. A rule is left only at its end.
const WORDS: [(&[u8], Want); 12] = [
    (
        b"error \"no\"; assert b; assert b \"why\"; put \"text\"; put x; put e; clear r; undefine a; clear a[0]",
        Want::Typed,
    ),
    (b"assert 1", Want::E07(8)),
    (b"put r", Want::E07(5)),
    (b"put u", Want::E05(5)),
    (b"put 1 + b", Want::E07(9)),
    (b"clear T", Want::E07(7)),
    (b"clear x.f", Want::E07(7)),
    (b"undefine a[b]", Want::E07(12)),
    (b"undefine u", Want::E05(10)),
    (b"return", Want::E11(1)),
    (b"return 1", Want::E11(1)),
    (b"if b then return u end", Want::E11(11)),
];

#[test]
fn words(rt: HostRuntime) -> Result<(), Fail> {
    assert_eq!(rt; wrong(rt.alloc(), &IN_RULE, &WORDS), None);
    Ok(())
}

/// Calls of procedures: a `var` formal takes a designator of the same type, a formal by value takes a value of its
/// type, where ranges count as one.
const CALLS: [(&[u8], Want); 22] = [
    (
        b"P(b); P(r.f); P(a[0]); P((c)); Q(x); Q(r.g); O(r, z); O(m[A], C)",
        Want::Typed,
    ),
    (b"Q(z)", Want::E07(3)),
    (b"P(x)", Want::E07(3)),
    (b"P(r)", Want::E07(3)),
    (b"P(true)", Want::E11(1)),
    (b"P(!b)", Want::E11(1)),
    (b"Q(x + 1)", Want::E11(1)),
    (b"P()", Want::E11(1)),
    (b"P(b, c)", Want::E11(1)),
    (b"F(1)", Want::E11(1)),
    (b"F()", Want::E11(1)),
    (b"D()", Want::E05(1)),
    (b"x(1)", Want::E07(1)),
    (b"T()", Want::E07(1)),
    (b"O(a, 1)", Want::E07(3)),
    (b"O(true, 1)", Want::E07(3)),
    (b"O(r, b)", Want::E07(6)),
    (b"O(x, b)", Want::E07(3)),
    (b"P(u)", Want::E05(3)),
    (b"P(r.h)", Want::E05(5)),
    (b"P(a[b])", Want::E07(5)),
    (b"O(r)", Want::E11(1)),
];

#[test]
fn calls(rt: HostRuntime) -> Result<(), Fail> {
    assert_eq!(rt; wrong(rt.alloc(), &IN_RULE, &CALLS), None);
    Ok(())
}

/// Procedures: formals by value may not be written, and `return` has no value.
const PROCEDURES: [(&[u8], Want); 15] = [
    (
        b"l := u; return; x := 1; Q(l); P(k); b := h.f; if b then return end; O(h, u)",
        Want::Typed,
    ),
    (
        b"var v : 0..3; begin v := u; l := v; for i : NODE do return end",
        Want::Typed,
    ),
    (b"u := 1", Want::E14(1)),
    (b"h := r", Want::E14(1)),
    (b"h.f := true", Want::E14(1)),
    (b"clear h", Want::E14(7)),
    (b"undefine u", Want::E14(10)),
    (b"Q(u)", Want::E14(3)),
    (b"P(h.f)", Want::E14(3)),
    (b"Q(h.g)", Want::E14(3)),
    (b"return 1", Want::E11(1)),
    (b"return b", Want::E11(1)),
    (b"for i : 0..1 do return i end", Want::E11(17)),
    (b"G(1, x, r, b)", Want::E10(1)),
    (b"b := G()", Want::E10(6)),
];

#[test]
fn procedures(rt: HostRuntime) -> Result<(), Fail> {
    assert_eq!(rt; wrong(rt.alloc(), &IN_PROCEDURE, &PROCEDURES), None);
    Ok(())
}

/// Functions write no global, call no procedure and return a value of their type.
const FUNCTIONS: [(&[u8], Want); 24] = [
    (
        b"var v : 0..3; begin v := u; clear v; undefine v; return v + K()",
        Want::Typed,
    ),
    (b"return z; if b then return u end", Want::Typed),
    (b"x := 1", Want::E10(1)),
    (b"r.f := true", Want::E10(1)),
    (b"a[0] := b", Want::E10(1)),
    (b"clear x", Want::E10(1)),
    (b"undefine r", Want::E10(1)),
    (b"P(b)", Want::E10(1)),
    (b"O(r, 1)", Want::E10(1)),
    (b"if P(b) then end", Want::E10(4)),
    (b"return P(b)", Want::E10(8)),
    (b"return G(u)", Want::E10(8)),
    (b"G(u)", Want::E10(1)),
    (b"F(1)", Want::E11(1)),
    (b"u := 1", Want::E14(1)),
    (b"C := 1", Want::E14(1)),
    (b"A := B", Want::E14(1)),
    (b"clear C", Want::E14(7)),
    (b"return", Want::E11(1)),
    (b"return true", Want::E07(8)),
    (b"return r", Want::E07(8)),
    (b"return 1 + b", Want::E07(12)),
    (b"x := b", Want::E10(1)),
    (b"x := u2", Want::E10(1)),
];

#[test]
fn functions(rt: HostRuntime) -> Result<(), Fail> {
    assert_eq!(rt; wrong(rt.alloc(), &IN_FUNCTION, &FUNCTIONS), None);
    Ok(())
}

/// Heads of routines.
const HEADS: [(&[u8], Want); 12] = [
    (
        b"function F(var v, w : boolean) : boolean; return v; end;",
        Want::E10(16),
    ),
    (
        b"function F(v : boolean; var w : boolean) : boolean; return v; end;",
        Want::E10(29),
    ),
    (
        b"procedure P(var v, w : boolean); v := w; end;",
        Want::Typed,
    ),
    (
        b"function F() : record f : boolean end; end;",
        Want::E07(16),
    ),
    (
        b"type R : array [0..1] of boolean; function F() : R; end;",
        Want::E07(50),
    ),
    (b"function F() : T; end;", Want::E05(16)),
    (b"function F() : boolean; end;", Want::Typed),
    (
        b"type T : 0..1; function F(v : record f : T end) : T; return v.f; end;",
        Want::Typed,
    ),
    (b"procedure P(v : T); end;", Want::E05(17)),
    (
        b"var x : boolean; procedure P(v : 0..1; w : x); end;",
        Want::E07(44),
    ),
    (
        b"procedure P(v : 0..1); var w : 0..v; begin end;",
        Want::E08(35),
    ),
    (b"procedure P(v : v); begin end;", Want::E05(17)),
];

#[test]
fn heads(rt: HostRuntime) -> Result<(), Fail> {
    assert_eq!(rt; wrong(rt.alloc(), &DECLARED, &HEADS), None);
    Ok(())
}
