//! Names and their scopes: what is declared where, and twice.

use crate::answers::{ALONE, DECLARED, ITEM, Want, wrong};
use std::test::Fail;

/// A name is declared from the end of its declaration on.
const ENDS_OF_DECLARATIONS: [(&[u8], Want); 16] = [
    (b"const a : a;", Want::E05(11)),
    (b"var x : 0..y; const y : 1;", Want::E05(12)),
    (b"type T : array [0..1] of T;", Want::E05(26)),
    (b"const a : 1 + b;", Want::E05(15)),
    (b"var x : t;", Want::E05(9)),
    (
        b"var a : boolean; procedure P(); a := A; end;",
        Want::E05(38),
    ),
    (b"var a, A : boolean;", Want::Typed),
    (b"const a : 1; b : a; var x : b..a;", Want::Typed),
    (
        b"procedure P(v : boolean; var w : boolean); w := v; end;",
        Want::Typed,
    ),
    (b"procedure P(); P(); end;", Want::E10(16)),
    (
        b"function F(v : boolean) : boolean; return F(v); end;",
        Want::E10(43),
    ),
    (
        b"procedure P(); Q(); end; procedure Q(); end;",
        Want::E10(16),
    ),
    (
        b"var b : boolean; function F() : boolean; return G(); end; function G() : boolean; return b; end;",
        Want::E10(49),
    ),
    (b"procedure P(); Q(); end;", Want::E05(16)),
    (
        b"procedure P(v : boolean); end; procedure Q(); v := true; end;",
        Want::E05(47),
    ),
    (b"procedure Q(); end; procedure P(); Q(); end;", Want::Typed),
];

#[test]
fn ends_of_declarations(rt: HostRuntime) -> Result<(), Fail> {
    assert_eq!(rt; wrong(rt.alloc(), &DECLARED, &ENDS_OF_DECLARATIONS), None);
    Ok(())
}

/// The second name of one scope, in text order.
const DECLARED_TWICE: [(&[u8], Want); 17] = [
    (b"var a : boolean; a : 0..1;", Want::E06(18)),
    (b"var a, a : boolean;", Want::E06(8)),
    (b"const a : 1; type a : boolean;", Want::E06(19)),
    (b"var P : boolean; procedure P(); end;", Want::E06(28)),
    (
        b"procedure P(); end; function P() : boolean; return true; end;",
        Want::E06(30),
    ),
    (
        b"procedure P(a : boolean; a : boolean); end;",
        Want::E06(26),
    ),
    (b"procedure P(a, b, a : boolean); end;", Want::E06(19)),
    (
        b"procedure P(a : boolean); var b, a : boolean; begin end;",
        Want::E06(34),
    ),
    (
        b"procedure P(); var a : boolean; const a : 1; begin end;",
        Want::E06(39),
    ),
    (
        b"type T : record f : boolean; g, f : 0..1 end;",
        Want::E06(33),
    ),
    (
        b"type T : record f : record g, g : boolean end end;",
        Want::E06(31),
    ),
    (
        b"var f : array [0..1] of record f, f : boolean end;",
        Want::E06(35),
    ),
    (
        b"procedure P(a : record f, f : boolean end); end;",
        Want::E06(27),
    ),
    (
        b"var f : record f : record f : boolean end end;",
        Want::Typed,
    ),
    (
        b"var a : boolean; procedure P(a : 0..1); var b : boolean; begin b := a = 1; end;",
        Want::Typed,
    ),
    (
        b"procedure P(var P : boolean); P := true; end; var a : boolean;",
        Want::Typed,
    ),
    (
        b"procedure P(a : boolean); end; procedure Q(a : boolean); end;",
        Want::Typed,
    ),
];

#[test]
fn declared_twice(rt: HostRuntime) -> Result<(), Fail> {
    assert_eq!(rt; wrong(rt.alloc(), &DECLARED, &DECLARED_TWICE), None);
    Ok(())
}

/// Enum names are global wherever an enum is written, from its end on.
const ENUM_NAMES: [(&[u8], Want); 16] = [
    (b"type X : enum { X };", Want::E06(17)),
    (b"type X : enum { A, B, A };", Want::E06(23)),
    (b"const A : 1; type X : enum { B, A };", Want::E06(33)),
    (b"type X : enum { A }; const A : 1;", Want::E06(28)),
    (b"type X : enum { A }; Y : enum { B, A };", Want::E06(36)),
    (
        b"var x : record f : enum { A }; g : enum { A } end;",
        Want::E06(43),
    ),
    (
        b"procedure P(v : enum { A }); end; var A : boolean;",
        Want::E06(39),
    ),
    (
        b"procedure P(); var v : enum { A }; begin end; procedure A(); end;",
        Want::E06(57),
    ),
    (
        b"const A : 1; procedure P(); var v : enum { A }; begin end;",
        Want::E06(44),
    ),
    (
        b"procedure P(); var A : enum { A }; begin end;",
        Want::Typed,
    ),
    (
        b"procedure P(v : enum { A, B }); var w : boolean; begin w := v = A; end;",
        Want::Typed,
    ),
    (
        b"procedure P(v : enum { A, B }); end; procedure Q(v : boolean); var w : boolean; begin w := v & A = B; end;",
        Want::Typed,
    ),
    (
        b"var v : enum { A, B }; w : boolean; procedure P(A : boolean); w := A; end;",
        Want::Typed,
    ),
    (
        b"var v : enum { A, B }; w : enum { C }; procedure P(); v := C; end;",
        Want::E07(60),
    ),
    (b"var v : array [A..1] of enum { A };", Want::E05(16)),
    (
        b"var v : array [enum { A, B }] of boolean; procedure P(); v[1] := v[B]; end;",
        Want::E07(60),
    ),
];

#[test]
fn enum_names(rt: HostRuntime) -> Result<(), Fail> {
    assert_eq!(rt; wrong(rt.alloc(), &DECLARED, &ENUM_NAMES), None);
    Ok(())
}

/// The same in items: a local, a bind, and what is declared in them.
const ENUMS_IN_ITEMS: [(&[u8], Want); 10] = [
    (
        b"rule true ==> var v : enum { A, B }; begin v := B end; invariant A != B",
        Want::Typed,
    ),
    (
        b"invariant forall v : enum { A, B } do v = A end; invariant A != B",
        Want::Typed,
    ),
    (
        b"invariant A != B; invariant forall v : enum { A, B } do v = A end",
        Want::E05(11),
    ),
    (
        b"invariant forall v : enum { A } do true end; rule true ==> var v : enum { B, A }; begin end",
        Want::E06(78),
    ),
    (
        b"invariant forall v : enum { A } do true end; ruleset v : enum { A } do end",
        Want::E06(65),
    ),
    (
        b"ruleset v : enum { A, B } do rule v = A ==> end end; invariant A = B",
        Want::Typed,
    ),
    (
        b"rule true ==> var v, v : boolean; begin end",
        Want::E06(22),
    ),
    (
        b"rule true ==> var v : boolean; begin end; rule true ==> var v : 0..1; begin end",
        Want::Typed,
    ),
    (b"rule true ==> var v : enum { v }; begin end", Want::Typed),
    (
        b"rule true ==> var v : boolean; begin end; invariant v",
        Want::E05(53),
    ),
];

#[test]
fn enums_in_items(rt: HostRuntime) -> Result<(), Fail> {
    assert_eq!(rt; wrong(rt.alloc(), &ITEM, &ENUMS_IN_ITEMS), None);
    Ok(())
}

/// Inner names hide outer ones.
const HIDDEN_NAMES: [(&[u8], Want); 12] = [
    (
        b"ruleset i : 0..1; i : boolean do invariant i end",
        Want::Typed,
    ),
    (
        b"ruleset i : boolean; i : 0..1 do invariant i end",
        Want::E07(44),
    ),
    (
        b"ruleset i : 0..1 do ruleset i : boolean do invariant i end end",
        Want::Typed,
    ),
    (
        b"ruleset i : boolean do ruleset i : 0..1 do end; invariant i; rule true ==> var i : 0..1; begin assert i end end",
        Want::E07(103),
    ),
    (b"ruleset i : boolean do end; invariant i", Want::E05(39)),
    (b"ruleset i : 0..i; j : boolean do end", Want::E05(16)),
    (b"ruleset i : 0..1; j : 0..i do end", Want::E08(26)),
    (
        b"invariant forall i : 0..1 do forall i : boolean do i end & i = 0 end",
        Want::Typed,
    ),
    (b"invariant forall i : boolean do i end & i", Want::E05(41)),
    (
        b"rule true ==> for i : 0..1 do end; assert i = 0 end",
        Want::E05(43),
    ),
    (
        b"rule true ==> var v : 0..1; begin for v : boolean do assert v end; v := 0 end",
        Want::Typed,
    ),
    (
        b"rule true ==> var v : boolean; begin for v : 0..1 do assert v end end",
        Want::E07(61),
    ),
];

#[test]
fn hidden_names(rt: HostRuntime) -> Result<(), Fail> {
    assert_eq!(rt; wrong(rt.alloc(), &ITEM, &HIDDEN_NAMES), None);
    Ok(())
}

/// The name that is given to the node type, and missing start states: after all that has a place.
const WITHOUT_PLACES: [(&[u8], Want); 4] = [
    (b"var x : boolean; invariant \"X\" x = true;", Want::E09),
    (b"ruleset i : 0..1 do end; ; invariant true", Want::E09),
    (b"ruleset i : 0..1 do startstate end end", Want::Typed),
    (b"invariant 1", Want::E07(11)),
];

#[test]
fn without_places(rt: HostRuntime) -> Result<(), Fail> {
    assert_eq!(rt; wrong(rt.alloc(), &ALONE, &WITHOUT_PLACES), None);
    Ok(())
}
