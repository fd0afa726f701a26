//! Rows of the rules about `for` over nodes: S4 to S8. The rows stand behind the declarations of `DECLARED`.

use crate::answers::{DECLARED, Want, wrong};
use std::test::Fail;

/// S4: no `return` in such a loop, however deep; in other loops there may be one.
const RETURNS: [(&[u8], Want); 5] = [
    (
        b"procedure X(); for i : NODE do return end; end; startstate end",
        Want::Broken(4, 5, 32),
    ),
    (
        b"procedure X(); for i : NODE do A[i] := b end; return; end; startstate end",
        Want::Whole,
    ),
    (
        b"procedure X(); for i : 0..3 do return end; end; startstate end",
        Want::Whole,
    ),
    (
        b"procedure X(); for i : NODE do for j : 0..3 do return end end; end; startstate end",
        Want::Broken(4, 5, 48),
    ),
    (
        b"procedure X(); for i : NODE do if b then return end end; end; startstate end",
        Want::Broken(4, 5, 42),
    ),
];

#[test]
fn returns(rt: HostRuntime) -> Result<(), Fail> {
    assert_eq!(rt; wrong(rt.alloc(), DECLARED, b"NODE", &RETURNS), None);
    Ok(())
}

/// S5: what is written in such a loop has an index that is its variable, at any place.
const WRITES: [(&[u8], Want); 12] = [
    (
        b"startstate var t : boolean; begin for i : NODE do t := A[i] end end",
        Want::Broken(5, 5, 51),
    ),
    (
        b"startstate for i : NODE do c := 0 end end",
        Want::Broken(5, 5, 28),
    ),
    (
        b"startstate for i : NODE do A[n] := true end end",
        Want::Broken(5, 5, 28),
    ),
    (
        b"startstate for i : NODE do A[i] := true end end",
        Want::Whole,
    ),
    (
        b"startstate for i : NODE do M[n][i] := true end end",
        Want::Whole,
    ),
    (
        b"startstate for i : NODE do clear A end end",
        Want::Broken(5, 5, 34),
    ),
    (
        b"startstate for i : NODE do undefine M[n] end end",
        Want::Broken(5, 5, 37),
    ),
    (
        b"startstate for i : NODE do clear M[i] end end",
        Want::Whole,
    ),
    (
        b"startstate for i : NODE do for j : NODE do A[j] := true end end end",
        Want::Broken(5, 5, 44),
    ),
    (
        b"startstate for i : NODE do for j : NODE do M[i][j] := true end end end",
        Want::Whole,
    ),
    (
        b"startstate for i : 0..3 do c := i; A[n] := true end end",
        Want::Whole,
    ),
    (
        b"startstate for i : NODE do if b then b := false end end end",
        Want::Broken(5, 5, 38),
    ),
];

#[test]
fn writes(rt: HostRuntime) -> Result<(), Fail> {
    assert_eq!(rt; wrong(rt.alloc(), DECLARED, b"NODE", &WRITES), None);
    Ok(())
}

/// S6: each other write that overlaps has the variable at the same place. Where each of two lacks it, the first is named.
const OTHER_WRITES: [(&[u8], Want); 6] = [
    (
        b"startstate for i : NODE do M[n][i] := true; M[i][i] := false end end",
        Want::Broken(6, 5, 28),
    ),
    (
        b"startstate for i : NODE do M[i][n] := true; M[i][i] := false end end",
        Want::Whole,
    ),
    (
        b"startstate for i : NODE do M[n][i] := true; M[i][n] := false end end",
        Want::Broken(6, 5, 28),
    ),
    (
        b"startstate for i : NODE do M[i] := A; M[n][i] := b end end",
        Want::Broken(6, 5, 28),
    ),
    (
        b"startstate for i : NODE do S.f[i] := true; T.f[i] := b end end",
        Want::Whole,
    ),
    (
        b"startstate for i : NODE do A[i] := true; M[n][i] := true end end",
        Want::Whole,
    ),
];

#[test]
fn other_writes(rt: HostRuntime) -> Result<(), Fail> {
    assert_eq!(rt; wrong(rt.alloc(), DECLARED, b"NODE", &OTHER_WRITES), None);
    Ok(())
}

/// S7: so has each read that overlaps, `isundefined` and copies of compounds included, but for the argument of `put`.
const READS: [(&[u8], Want); 9] = [
    (
        b"startstate for i : NODE do A[i] := !A[n] end end",
        Want::Broken(7, 5, 37),
    ),
    (
        b"startstate for i : NODE do A[i] := !A[i] end end",
        Want::Whole,
    ),
    (
        b"startstate for i : NODE do A[i] := !B[n] end end",
        Want::Whole,
    ),
    (
        b"startstate for i : NODE do A[i] := isundefined(A[n]) end end",
        Want::Broken(7, 5, 48),
    ),
    (
        b"startstate for i : NODE do A[i] := true; M[i] := A end end",
        Want::Broken(7, 5, 50),
    ),
    (
        b"startstate for i : NODE do if A[n] then A[i] := true end end end",
        Want::Broken(7, 5, 31),
    ),
    (
        b"startstate for i : NODE do A[i] := exists j : NODE do A[j] end end end",
        Want::Broken(7, 5, 55),
    ),
    (
        b"startstate for i : NODE do A[i] := true; put A[n] end end",
        Want::Whole,
    ),
    (
        b"startstate b := A[n]; for i : NODE do A[i] := b end end",
        Want::Whole,
    ),
];

#[test]
fn reads(rt: HostRuntime) -> Result<(), Fail> {
    assert_eq!(rt; wrong(rt.alloc(), DECLARED, b"NODE", &READS), None);
    Ok(())
}

/// S8: a function holds no such loop.
const FUNCTIONS: [(&[u8], Want); 4] = [
    (
        b"function F() : boolean; for i : NODE do end; return true; end; startstate end",
        Want::Broken(8, 5, 25),
    ),
    (
        b"function F() : boolean; for i : 0..3 do end; return true; end; startstate end",
        Want::Whole,
    ),
    (
        b"function F() : boolean; return exists i : NODE do A[i] end; end; startstate end",
        Want::Whole,
    ),
    (
        b"procedure X(); for i : NODE do end; end; startstate end",
        Want::Whole,
    ),
];

#[test]
fn functions(rt: HostRuntime) -> Result<(), Fail> {
    assert_eq!(rt; wrong(rt.alloc(), DECLARED, b"NODE", &FUNCTIONS), None);
    Ok(())
}

/// The first break in text order is named, and at one place the least rule.
const FIRST_BREAKS: [(&[u8], Want); 5] = [
    (
        b"procedure X(); for i : NODE do c := 0; return end; end; startstate end",
        Want::Broken(5, 5, 32),
    ),
    (
        b"procedure X(); for i : NODE do return; c := 0 end; end; startstate end",
        Want::Broken(4, 5, 32),
    ),
    (
        b"startstate for i : NODE do clear n end end",
        Want::Broken(3, 5, 34),
    ),
    (
        b"startstate for i : NODE do c := 0; clear n end end",
        Want::Broken(5, 5, 28),
    ),
    (
        b"startstate end; rule true ==> for i : NODE do c := 0 end end; rule true ==> clear n end",
        Want::Broken(5, 5, 47),
    ),
];

#[test]
fn first_breaks(rt: HostRuntime) -> Result<(), Fail> {
    assert_eq!(rt; wrong(rt.alloc(), DECLARED, b"NODE", &FIRST_BREAKS), None);
    Ok(())
}
