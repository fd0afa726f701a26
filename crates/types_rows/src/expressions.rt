//! Expressions, beside the declarations of the world.

use crate::answers::{EXPRESSION, Want, wrong};
use std::test::Fail;

/// Names and designators.
const NAMES: [(&[u8], Want); 25] = [
    (b"b", Want::Typed),
    (b"u", Want::E05(1)),
    (b"r.h", Want::E05(3)),
    (b"m[A].h", Want::E05(6)),
    (b"r.R", Want::E05(3)),
    (b"x", Want::E07(1)),
    (b"T", Want::E07(1)),
    (b"F", Want::E07(1)),
    (b"P", Want::E07(1)),
    (b"r", Want::E07(1)),
    (b"x.f", Want::E07(1)),
    (b"r.f.g", Want::E07(1)),
    (b"a.f", Want::E07(1)),
    (b"b[0]", Want::E07(1)),
    (b"r[0]", Want::E07(1)),
    (b"a[0][1]", Want::E07(1)),
    (b"a[true]", Want::E07(3)),
    (b"a[r]", Want::E07(3)),
    (b"a[A]", Want::E07(3)),
    (b"w[1]", Want::E07(3)),
    (b"w[s]", Want::E07(3)),
    (b"w[n] & a[x] & a[z] & m[e].f", Want::Typed),
    (b"m[x].f", Want::E07(3)),
    (b"a[a[b] ? 0 : 1]", Want::E07(5)),
    (b"a[a[0] ? 0 : 1]", Want::Typed),
];

#[test]
fn names(rt: HostRuntime) -> Result<(), Fail> {
    assert_eq!(rt; wrong(rt.alloc(), &EXPRESSION, &NAMES), None);
    Ok(())
}

/// Operands.
const OPERANDS: [(&[u8], Want); 16] = [
    (b"b & !c | b -> c", Want::Typed),
    (b"!x", Want::E07(2)),
    (b"b & x", Want::E07(5)),
    (b"x & b", Want::E07(1)),
    (b"b | c | 1", Want::E07(9)),
    (b"b -> 1", Want::E07(6)),
    (b"1 -> b", Want::E07(1)),
    (b"x + b = 1", Want::E07(5)),
    (b"b + x = 1", Want::E07(1)),
    (b"b + c = 1", Want::E07(1)),
    (b"x - 1 - e = 1", Want::E07(9)),
    (b"x * b = 1", Want::E07(5)),
    (b"2 / (n) = 1", Want::E07(6)),
    (b"-b = 1", Want::E07(2)),
    (b"!(x + 1)", Want::E07(3)),
    (b"-x + z * C / 2 % 3 > -7", Want::Typed),
];

#[test]
fn operands(rt: HostRuntime) -> Result<(), Fail> {
    assert_eq!(rt; wrong(rt.alloc(), &EXPRESSION, &OPERANDS), None);
    Ok(())
}

/// Comparisons and choices: of two unlike operands the right is wrong, and a compound is wrong by itself.
const COMPARISONS: [(&[u8], Want); 22] = [
    (
        b"x = z & e = B & n = n & s != s & b = c & x <= z & C >= 1",
        Want::Typed,
    ),
    (b"b < 1", Want::E07(1)),
    (b"1 < b", Want::E07(5)),
    (b"b < c", Want::E07(1)),
    (b"e >= A", Want::E07(1)),
    (b"x > n", Want::E07(5)),
    (b"x = b", Want::E07(5)),
    (b"b != x", Want::E07(6)),
    (b"e = s", Want::E07(5)),
    (b"n = s", Want::E07(5)),
    (b"e = 1", Want::E07(5)),
    (b"r = r", Want::E07(1)),
    (b"r = x", Want::E07(1)),
    (b"x != r", Want::E07(6)),
    (b"a < 1", Want::E07(1)),
    (b"x ? b : c", Want::E07(1)),
    (b"b ? c : x", Want::E07(9)),
    (b"b ? r : r", Want::E07(5)),
    (b"b ? r : 1", Want::E07(5)),
    (b"b ? c : r", Want::E07(9)),
    (b"(b ? x : z) = 1", Want::Typed),
    (b"(b ? e : A) = B", Want::Typed),
];

#[test]
fn comparisons(rt: HostRuntime) -> Result<(), Fail> {
    assert_eq!(rt; wrong(rt.alloc(), &EXPRESSION, &COMPARISONS), None);
    Ok(())
}

/// `isundefined` takes what has a simple type, also what is never undefined.
const UNDEFINED: [(&[u8], Want); 12] = [
    (
        b"isundefined(b) & isundefined(r.f) & isundefined(a[x]) & isundefined(m[e].g)",
        Want::Typed,
    ),
    (b"isundefined(C) & isundefined(A)", Want::Typed),
    (b"forall i : 0..1 do isundefined(i) end", Want::Typed),
    (b"isundefined(r)", Want::E07(13)),
    (b"isundefined(a)", Want::E07(13)),
    (b"isundefined(m[A])", Want::E07(13)),
    (b"isundefined(T)", Want::E07(13)),
    (b"isundefined(F)", Want::E07(13)),
    (b"isundefined(u)", Want::E05(13)),
    (b"isundefined(a[b])", Want::E07(15)),
    (b"isundefined(C.f)", Want::E07(13)),
    (b"isundefined(b) + 1 = 1", Want::E07(1)),
];

#[test]
fn undefined(rt: HostRuntime) -> Result<(), Fail> {
    assert_eq!(rt; wrong(rt.alloc(), &EXPRESSION, &UNDEFINED), None);
    Ok(())
}

/// Quantifiers.
const QUANTIFIERS: [(&[u8], Want); 13] = [
    (b"exists i : E do i = A end", Want::Typed),
    (b"forall i := 1 to C do i < 5 end", Want::Typed),
    (
        b"forall i : NODE do w[i] | exists j : NODE do i = j end end",
        Want::Typed,
    ),
    (b"forall i : R do true end", Want::E07(12)),
    (
        b"forall i : array [0..1] of boolean do true end",
        Want::E07(12),
    ),
    (b"forall i : x do true end", Want::E07(12)),
    (b"forall i : u do i end", Want::E05(12)),
    (b"forall i : 0..1 do i end", Want::E07(20)),
    (b"forall i : NODE do i = 1 end", Want::E07(24)),
    (b"exists i : S do w[i] end", Want::E07(19)),
    (b"forall i := 2 to 1 do true end", Want::E08(13)),
    (b"forall i := 0 to x do true end", Want::E08(18)),
    (b"forall i : 0..1 do true end + 1 = 1", Want::E07(1)),
];

#[test]
fn quantifiers(rt: HostRuntime) -> Result<(), Fail> {
    assert_eq!(rt; wrong(rt.alloc(), &EXPRESSION, &QUANTIFIERS), None);
    Ok(())
}

/// Calls as values.
const CALLS: [(&[u8], Want); 18] = [
    (b"F(1)", Want::Typed),
    (b"F(x) & F(z) & F(K()) & K() = 2", Want::Typed),
    (b"F(b)", Want::E07(3)),
    (b"F(r)", Want::E07(3)),
    (b"b = K()", Want::E07(5)),
    (b"K()", Want::E07(1)),
    (b"F()", Want::E11(1)),
    (b"F(1, 2)", Want::E11(1)),
    (b"F(b, c)", Want::E11(1)),
    (b"P(b)", Want::E11(1)),
    (b"O(r, 1)", Want::E11(1)),
    (b"x()", Want::E07(1)),
    (b"T(1)", Want::E07(1)),
    (b"C()", Want::E07(1)),
    (b"A(1)", Want::E07(1)),
    (b"D()", Want::E05(1)),
    (b"D(u)", Want::E05(1)),
    (b"F(D())", Want::E05(3)),
];

#[test]
fn calls(rt: HostRuntime) -> Result<(), Fail> {
    assert_eq!(rt; wrong(rt.alloc(), &EXPRESSION, &CALLS), None);
    Ok(())
}

/// A part in which anything is wrong fits every place, and the first fault in text order is named.
const FIRST_FAULTS: [(&[u8], Want); 12] = [
    (b"b = (1 + b)", Want::E07(10)),
    (b"x = (u)", Want::E05(6)),
    (b"F(u)", Want::E05(3)),
    (b"a[u]", Want::E05(3)),
    (b"u.f = 1", Want::E05(1)),
    (b"u[true + 1]", Want::E05(1)),
    (b"!(u + true)", Want::E05(3)),
    (b"(1 + b) = u", Want::E07(6)),
    (b"b & (c -> x) & u", Want::E07(11)),
    (b"forall i : 0..1 do u end & 1", Want::E05(20)),
    (b"b ? (c & x) : 1", Want::E07(10)),
    (b"(b ? u : r) = a", Want::E05(6)),
];

#[test]
fn first_faults(rt: HostRuntime) -> Result<(), Fail> {
    assert_eq!(rt; wrong(rt.alloc(), &EXPRESSION, &FIRST_FAULTS), None);
    Ok(())
}
