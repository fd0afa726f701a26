//! Rows of S9: the loops over nodes with all calls opened. The rows stand behind the declarations of `DECLARED`.

use crate::answers::{DECLARED, Want, wrong};
use std::test::Fail;

/// A loop in a called body is judged with the arguments for the formals; a formal by value is a variable of its own.
const LOOPS_IN_CALLED_BODIES: [(&[u8], Want); 7] = [
    (
        b"procedure X(var a, b : ARR; k : NODE); for i : NODE do a[i] := !b[k] end; end; startstate X(A, B, n) end",
        Want::Whole,
    ),
    (
        b"procedure X(var a, b : ARR; k : NODE); for i : NODE do a[i] := !b[k] end; end; startstate X(A, A, n) end",
        Want::Broken(9, 5, 91),
    ),
    (
        b"procedure X(var a, b : ARR; k : NODE); for i : NODE do a[i] := !b[k] end; end; startstate end",
        Want::Whole,
    ),
    (
        b"procedure X(var a : ARR; b : ARR; k : NODE); for i : NODE do a[i] := !b[k] end; end; startstate X(A, A, n) end",
        Want::Whole,
    ),
    (
        b"procedure Y(var a, b : ARR; k : NODE); for i : NODE do a[i] := !b[k] end; end; procedure X(var a, b : ARR; k : NODE); Y(a, b, k); end; startstate X(A, B, n) end",
        Want::Whole,
    ),
    (
        b"procedure Y(var a, b : ARR; k : NODE); for i : NODE do a[i] := !b[k] end; end; procedure X(var a, b : ARR; k : NODE); Y(a, b, k); end; startstate X(A, A, n) end",
        Want::Broken(9, 5, 147),
    ),
    (
        b"procedure X(var a, b : ARR; k : NODE); for i : NODE do a[i] := !b[k] end; end; startstate X(A, B, n); X(B, B, n); X(A, A, n) end",
        Want::Broken(9, 5, 103),
    ),
];

#[test]
fn loops_in_called_bodies(rt: HostRuntime) -> Result<(), Fail> {
    assert_eq!(rt;
        wrong(rt.alloc(), DECLARED, b"NODE", &LOOPS_IN_CALLED_BODIES),
        None
    );
    Ok(())
}

/// In a loop a formal by value stands for its argument as an index, a `var` formal for the designator that it is given;
/// locals of called routines are exempt.
const CALLS_IN_LOOPS: [(&[u8], Want); 9] = [
    (
        b"procedure X(k : NODE); A[k] := true; end; startstate for i : NODE do X(i) end end",
        Want::Whole,
    ),
    (
        b"procedure X(k : NODE); A[k] := true; end; startstate for i : NODE do X(n) end end",
        Want::Broken(9, 5, 70),
    ),
    (
        b"procedure X(k : NODE); A[k] := true; end; startstate X(n) end",
        Want::Whole,
    ),
    (
        b"procedure X(k : NODE); var t : boolean; begin t := A[k]; A[k] := !t; end; startstate for i : NODE do X(i) end end",
        Want::Whole,
    ),
    (
        b"function F(k : NODE) : boolean; return A[k]; end; startstate for i : NODE do A[i] := F(i) end end",
        Want::Whole,
    ),
    (
        b"function F(k : NODE) : boolean; return A[k]; end; startstate for i : NODE do A[i] := F(n) end end",
        Want::Broken(9, 5, 86),
    ),
    (
        b"procedure X(var a : boolean); a := true; end; startstate for i : NODE do X(A[i]) end end",
        Want::Whole,
    ),
    (
        b"procedure X(var a : boolean); a := true; end; startstate for i : NODE do X(A[n]) end end",
        Want::Broken(9, 5, 74),
    ),
    (
        b"procedure X(var a : boolean); a := true; end; startstate for i : NODE do X(b) end end",
        Want::Broken(9, 5, 74),
    ),
];

#[test]
fn calls_in_loops(rt: HostRuntime) -> Result<(), Fail> {
    assert_eq!(rt; wrong(rt.alloc(), DECLARED, b"NODE", &CALLS_IN_LOOPS), None);
    Ok(())
}

/// What an argument is: by value a read where the call is written, and reading the formal is no second read of it; for
/// a `var` formal no access but for the reads in its indices. The first call in text order that takes part in a break
/// is named.
const ARGUMENTS_IN_LOOPS: [(&[u8], Want); 8] = [
    (
        b"function F(k : NODE) : boolean; return A[k]; end; startstate for i : NODE do A[i] := true; put F(n) end end",
        Want::Whole,
    ),
    (
        b"procedure X(k : NODE); A[k] := true; end; procedure Y(k : NODE); var t : boolean; begin t := A[k]; end; startstate for i : NODE do X(i); Y(n) end end",
        Want::Broken(9, 5, 132),
    ),
    (
        b"procedure Y(k : NODE); var t : boolean; begin t := A[k]; end; startstate for i : NODE do A[i] := true; Y(n) end end",
        Want::Broken(9, 5, 104),
    ),
    (
        b"procedure Z(v : boolean); end; startstate for i : NODE do A[i] := true; Z(A[n]) end end",
        Want::Broken(7, 5, 75),
    ),
    (
        b"procedure Z(v : boolean); var t : boolean; begin t := v; end; startstate for i : NODE do A[i] := true; Z(A[n]) end end",
        Want::Broken(7, 5, 106),
    ),
    (
        b"procedure Z(v : boolean); var t : boolean; begin t := v; end; startstate for i : NODE do A[i] := true; Z(A[i]) end end",
        Want::Whole,
    ),
    (
        b"procedure E(var v : boolean); end; startstate for i : NODE do A[i] := true; E(A[n]) end end",
        Want::Whole,
    ),
    (
        b"procedure E(var v : boolean); end; startstate for i : NODE do A[i] := true; E(B[P[A[n]]]) end end",
        Want::Broken(7, 5, 83),
    ),
];

#[test]
fn arguments_in_loops(rt: HostRuntime) -> Result<(), Fail> {
    assert_eq!(rt;
        wrong(rt.alloc(), DECLARED, b"NODE", &ARGUMENTS_IN_LOOPS),
        None
    );
    Ok(())
}
