//! Constants, and the types that are written with them.

use crate::answers::{DECLARED, Want, wrong};
use std::test::Fail;

/// What a constant may be written with, and its value.
const CONSTANTS: [(&[u8], Want); 16] = [
    (b"const a : 1 + 2 * 3; var x : 7..a;", Want::Typed),
    (b"const a : 1 + 2 * 3; var x : 8..a;", Want::E08(30)),
    (b"var x : 7..13/2;", Want::E08(9)),
    (b"var x : 6..13/2; y : -3..-7/2; z : -1..-7%2;", Want::Typed),
    (b"var x : -3..-9/2;", Want::E08(9)),
    (b"var x : 1..(true ? 1 : 0);", Want::Typed),
    (b"var x : 1..(!false ? 1 : 0);", Want::Typed),
    (
        b"var x : 2..(1 < 2 & 2 <= 2 & 3 > 2 & 2 >= 2 & 1 != 2 ? 2 : 1);",
        Want::Typed,
    ),
    (
        b"const a : 0; var x : 3..(a != 0 & 1 / a = 1 ? 2 : 3);",
        Want::Typed,
    ),
    (
        b"var x : 2..(true | 1 / 0 = 1 ? 2 : 1); y : 2..(false -> 1 / 0 = 1 ? 2 : 1);",
        Want::Typed,
    ),
    (b"var x : 1..(true ? 1 : 1 / 0);", Want::Typed),
    (
        b"type E : enum { A, B }; var x : 2..(A = B ? 1 : 2);",
        Want::Typed,
    ),
    (
        b"type E : enum { A, B }; var x : 3..(A != B ? 2 : 3);",
        Want::E08(33),
    ),
    (b"const a : 32766 + 1; b : -32767 - 1;", Want::Typed),
    (b"const a : (-32767 - 1) % -1; var x : 0..a;", Want::Typed),
    (
        b"const a : 3; procedure P(); const b : a + 1; var v : 4..b; begin end;",
        Want::Typed,
    ),
];

#[test]
fn constants(rt: HostRuntime) -> Result<(), Fail> {
    assert_eq!(rt; wrong(rt.alloc(), &DECLARED, &CONSTANTS), None);
    Ok(())
}

/// What no constant is, at its first token.
const NO_CONSTANTS: [(&[u8], Want); 19] = [
    (b"var x : 0..1; y : 0..x;", Want::E08(22)),
    (b"var x : 0..1; y : x..3;", Want::E08(19)),
    (b"var x : 0..1; const a : 1 + x;", Want::E08(25)),
    (
        b"var b : boolean; y : 0..(isundefined(b) ? 1 : 2);",
        Want::E08(26),
    ),
    (
        b"var y : 0..(forall i : 0..1 do true end ? 1 : 2);",
        Want::E08(13),
    ),
    (
        b"function F() : 0..1; return 1; end; var y : 0..F();",
        Want::E08(48),
    ),
    (b"var r : array [0..1] of 0..1; y : 0..r[0];", Want::E08(38)),
    (
        b"procedure P(v : 0..1); var y : 0..v; begin end;",
        Want::E08(35),
    ),
    (b"const a : true;", Want::E08(11)),
    (b"type E : enum { A }; const a : A;", Want::E08(32)),
    (b"var x : 0..true;", Want::E08(12)),
    (b"type E : enum { A }; var x : A..1;", Want::E08(30)),
    (b"var x : 0..1/0;", Want::E08(12)),
    (b"var x : 0..((1 % 0));", Want::E08(14)),
    (b"const a : 32767 + 1;", Want::E08(11)),
    (b"const a : -32767 - 2;", Want::E08(11)),
    (b"const a : (-32767 - 1) / -1;", Want::E08(12)),
    (b"type S : scalarset(true);", Want::E08(20)),
    (b"type S : scalarset(1/0);", Want::E08(20)),
];

#[test]
fn no_constants(rt: HostRuntime) -> Result<(), Fail> {
    assert_eq!(rt; wrong(rt.alloc(), &DECLARED, &NO_CONSTANTS), None);
    Ok(())
}

/// A wrong operand inside is wrong by itself, and nothing follows from it.
const WRONG_OPERANDS: [(&[u8], Want); 6] = [
    (b"const a : 1 + true;", Want::E07(15)),
    (b"var x : 0..1; y : 0..x + true;", Want::E07(26)),
    (
        b"const a : 1 + b; c : a + 1; var x : c..a; y : array [0..a] of boolean;",
        Want::E05(15),
    ),
    (b"var x : 0..-true;", Want::E07(13)),
    (b"type S : scalarset(1 + false);", Want::E07(24)),
    (b"const a : (1 ? 2 : 3);", Want::E07(12)),
];

#[test]
fn wrong_operands(rt: HostRuntime) -> Result<(), Fail> {
    assert_eq!(rt; wrong(rt.alloc(), &DECLARED, &WRONG_OPERANDS), None);
    Ok(())
}
