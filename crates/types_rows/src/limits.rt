//! Limits, each where it is met and where it is passed.

use crate::answers::{DECLARED, FEW, ITEM, NODES, Want, wrong};
use murphi_types::fault::Quantity;
use std::test::Fail;

/// At most 4,000 cells of all globals; the declaration that passes the limit counts as a whole, and stands at its
/// first name.
const LEAVES_OF_GLOBALS: [(&[u8], Want); 17] = [
    (
        b"var a : array [0..199] of array [0..19] of boolean;",
        Want::Typed,
    ),
    (
        b"var a : array [0..199] of array [0..19] of boolean; b : boolean;",
        Want::E16(Quantity::Leaves, 4001, 4000),
    ),
    (
        b"var a : array [0..199] of array [0..19] of boolean; b, c : boolean; d : boolean;",
        Want::E16(Quantity::Leaves, 4002, 4000),
    ),
    (
        b"var a : array [0..199] of array [0..20] of boolean;",
        Want::E16(Quantity::Leaves, 4200, 4000),
    ),
    (
        b"var a, b : array [0..199] of array [0..19] of boolean;",
        Want::E16(Quantity::Leaves, 8000, 4000),
    ),
    (
        b"var a : array [0..199] of record f, g : array [0..8] of 0..3; h : record i, j : boolean end end;",
        Want::Typed,
    ),
    (
        b"var b : boolean; var a : array [0..199] of record f, g : array [0..8] of 0..3; h : record i, j : boolean end end;",
        Want::E16(Quantity::Leaves, 4001, 4000),
    ),
    (
        b"type T : array [0..199] of array [0..20] of boolean;",
        Want::Typed,
    ),
    (
        b"var a : array [enum { A, B }] of array [boolean] of array [0..9] of array [0..99] of 0..255;",
        Want::Typed,
    ),
    (
        b"var a : array [0..199] of array [0..19] of boolean; b : boolean; c : u;",
        Want::E16(Quantity::Leaves, 4001, 4000),
    ),
    (
        b"var a : array [0..199] of array [0..19] of boolean; c : u; b : boolean;",
        Want::E05(57),
    ),
    (
        b"var a : array [0..199] of array [0..20] of u;",
        Want::E05(44),
    ),
    (
        b"var c : boolean; b, c : array [0..199] of array [0..19] of boolean;",
        Want::E16(Quantity::Leaves, 8001, 4000),
    ),
    (
        b"var b : boolean; b, c : array [0..199] of array [0..19] of boolean;",
        Want::E06(18),
    ),
    (
        b"var a : array [0..255] of array [0..255] of array [0..255] of array [0..255] of array [0..255] of array [0..255] of array [0..255] of array [0..255] of array [0..255] of boolean;",
        Want::E16(Quantity::Leaves, u64::MAX, 4000),
    ),
    (
        b"var a : array [0..255] of array [0..255] of array [0..255] of array [0..255] of array [0..255] of array [0..255] of array [0..255] of array [0..255] of boolean;",
        Want::E16(Quantity::Leaves, u64::MAX, 4000),
    ),
    (
        b"var a : array [0..255] of array [0..255] of array [0..255] of array [0..255] of array [0..255] of array [0..255] of array [0..255] of boolean;",
        Want::E16(Quantity::Leaves, 72_057_594_037_927_936, 4000),
    ),
];

#[test]
fn leaves_of_globals(rt: HostRuntime) -> Result<(), Fail> {
    assert_eq!(rt; wrong(rt.alloc(), &DECLARED, &LEAVES_OF_GLOBALS), None);
    Ok(())
}

/// At most so many of the locals of one routine; formals do not count.
const LEAVES_OF_ROUTINES: [(&[u8], Want); 8] = [
    (
        b"procedure P(); var w : array [0..199] of array [0..19] of boolean; begin end;",
        Want::Typed,
    ),
    (
        b"procedure P(); var w : array [0..199] of array [0..19] of boolean; v : boolean; begin end;",
        Want::E16(Quantity::Leaves, 4001, 4000),
    ),
    (
        b"procedure P(v : array [0..199] of array [0..20] of boolean); end;",
        Want::Typed,
    ),
    (
        b"procedure P(v : array [0..199] of array [0..20] of boolean); var w : array [0..199] of array [0..19] of boolean; begin end;",
        Want::Typed,
    ),
    (
        b"procedure P(); var w : array [0..199] of array [0..19] of boolean; begin end; procedure Q(); var w : array [0..199] of array [0..19] of boolean; begin end; var w : array [0..199] of array [0..19] of boolean;",
        Want::Typed,
    ),
    (
        b"function F() : boolean; var w : array [0..199] of array [0..20] of boolean; begin return true; end;",
        Want::E16(Quantity::Leaves, 4200, 4000),
    ),
    (
        b"procedure P(); var w : array [0..199] of array [0..20] of boolean; begin u := 1; end;",
        Want::E16(Quantity::Leaves, 4200, 4000),
    ),
    (
        b"procedure P(v : u); var w : array [0..199] of array [0..20] of boolean; begin end;",
        Want::E05(17),
    ),
];

#[test]
fn leaves_of_routines(rt: HostRuntime) -> Result<(), Fail> {
    assert_eq!(rt; wrong(rt.alloc(), &DECLARED, &LEAVES_OF_ROUTINES), None);
    Ok(())
}

/// At most so many of the locals of one rule or start state; those of an ill-typed one are not counted.
const LEAVES_OF_ITEMS: [(&[u8], Want); 5] = [
    (
        b"rule true ==> var w : array [0..199] of array [0..19] of boolean; begin end; rule true ==> var w : array [0..199] of array [0..19] of boolean; begin end",
        Want::Typed,
    ),
    (
        b"rule true ==> var w : array [0..199] of array [0..19] of boolean; v : boolean; begin end",
        Want::E16(Quantity::Leaves, 4001, 4000),
    ),
    (
        b"startstate var w : array [0..199] of array [0..19] of boolean; v : boolean; begin end",
        Want::E16(Quantity::Leaves, 4001, 4000),
    ),
    (
        b"rule true ==> var w : array [0..199] of array [0..20] of boolean; begin u := 1 end",
        Want::E05(73),
    ),
    (
        b"startstate var w : array [0..199] of array [0..20] of boolean; begin assert 1 end",
        Want::E07(77),
    ),
];

#[test]
fn leaves_of_items(rt: HostRuntime) -> Result<(), Fail> {
    assert_eq!(rt; wrong(rt.alloc(), &ITEM, &LEAVES_OF_ITEMS), None);
    Ok(())
}

/// An array over nodes counts as with one node.
const LEAVES_OVER_NODES: [(&[u8], Want); 3] = [
    (
        b"type NODE : scalarset(2); var a : array [NODE] of array [0..199] of array [0..19] of boolean; startstate end",
        Want::Typed,
    ),
    (
        b"type NODE : scalarset(2); var a : array [NODE] of array [0..199] of array [0..19] of boolean; b : NODE; startstate end",
        Want::E16(Quantity::Leaves, 4001, 4000),
    ),
    (
        b"type NODE : scalarset(2); T : scalarset(2); var a : array [T] of array [0..199] of array [0..19] of boolean; startstate end",
        Want::E16(Quantity::Leaves, 8000, 4000),
    ),
];

#[test]
fn leaves_over_nodes(rt: HostRuntime) -> Result<(), Fail> {
    assert_eq!(rt; wrong(rt.alloc(), &NODES, &LEAVES_OVER_NODES), None);
    Ok(())
}

/// At most three node parameters of a rule or start state, those of all rulesets around it.
const PARAMETERS: [(&[u8], Want); 12] = [
    (
        b"ruleset h : NODE; i : NODE; j : NODE do rule b ==> end end",
        Want::Typed,
    ),
    (
        b"ruleset h : NODE; i : NODE; j : NODE; k : NODE do rule b ==> end end",
        Want::E16(Quantity::Parameters, 4, 3),
    ),
    (
        b"ruleset h : NODE; i : NODE; j : NODE; k : NODE do startstate end end",
        Want::E16(Quantity::Parameters, 4, 3),
    ),
    (
        b"ruleset h : NODE; i : NODE; j : NODE; k : NODE; l : NODE do rule b ==> end end",
        Want::E16(Quantity::Parameters, 5, 3),
    ),
    (
        b"ruleset h : NODE; i : NODE; j : NODE; k : NODE do invariant b end",
        Want::Typed,
    ),
    (
        b"ruleset h : NODE; i : NODE; j : NODE; k : NODE do end",
        Want::Typed,
    ),
    (
        b"ruleset h : NODE; i : T; j : NODE; k : boolean; l : NODE; m : T do rule b ==> end end",
        Want::Typed,
    ),
    (
        b"ruleset h : NODE; i : NODE do ruleset j : NODE; k : NODE do rule b ==> end end end",
        Want::E16(Quantity::Parameters, 4, 3),
    ),
    (
        b"ruleset h : NODE; i : NODE do ruleset j : NODE; k : NODE do rule u ==> end end end",
        Want::E16(Quantity::Parameters, 4, 3),
    ),
    (
        b"ruleset h : NODE; i : NODE do invariant u; ruleset j : NODE; k : NODE do rule b ==> end end end",
        Want::E05(41),
    ),
    (
        b"ruleset h : NODE; i : NODE; j : NODE; k : NODE do invariant u; rule b ==> end end",
        Want::E16(Quantity::Parameters, 4, 3),
    ),
    (
        b"ruleset h : NODE; i : NODE do ruleset j : NODE do rule b ==> end end; ruleset j : NODE do rule b ==> end end end",
        Want::Typed,
    ),
];

#[test]
fn parameters(rt: HostRuntime) -> Result<(), Fail> {
    assert_eq!(rt; wrong(rt.alloc(), &FEW, &PARAMETERS), None);
    Ok(())
}

/// At most 1,000 instances of all rules, of all start states, of all invariants; nodes do not count.
const INSTANCES: [(&[u8], Want); 18] = [
    (
        b"ruleset i : T; j : T; k : T do rule b ==> end end",
        Want::Typed,
    ),
    (
        b"ruleset i : T; j : T; k : T do rule b ==> end end; rule b ==> end",
        Want::E16(Quantity::Instances, 1001, 1000),
    ),
    (
        b"ruleset i : T; j : T; k : T do rule b ==> end; rule b ==> end end",
        Want::E16(Quantity::Instances, 2000, 1000),
    ),
    (
        b"ruleset i : T do ruleset j : T; k : T do rule b ==> end end; rule b ==> end end",
        Want::E16(Quantity::Instances, 1010, 1000),
    ),
    (
        b"ruleset i : T; j : T; k : T do rule b ==> end; invariant b end",
        Want::Typed,
    ),
    (
        b"ruleset i : T; j : T; k : T do invariant b end; invariant b",
        Want::E16(Quantity::Instances, 1001, 1000),
    ),
    (
        b"ruleset i : T; j : T; k : T do startstate end end",
        Want::E16(Quantity::Instances, 1001, 1000),
    ),
    (
        b"ruleset i : T; h : NODE; j : T; g : NODE; k : T do rule b ==> end end",
        Want::Typed,
    ),
    (
        b"ruleset i : T; j : 0..10; k : T do invariant b end",
        Want::E16(Quantity::Instances, 1100, 1000),
    ),
    (
        b"ruleset i : boolean; j : enum { A, B }; k : scalarset(2); l : 0..124 do rule b ==> end end",
        Want::Typed,
    ),
    (
        b"ruleset i : boolean; j : enum { A, B }; k : 0..250 do rule b ==> end end",
        Want::E16(Quantity::Instances, 1004, 1000),
    ),
    (
        b"ruleset i : T; j : T; k : T do rule b ==> end end; rule 1 ==> end",
        Want::E07(57),
    ),
    (
        b"ruleset i : T; j : T; k : T do rule b ==> end end; rule b ==> u := 1 end",
        Want::E05(63),
    ),
    (
        b"ruleset i : T; j : T; k : T do invariant b end; invariant 1",
        Want::E07(59),
    ),
    (
        b"ruleset i : T; j : T; k : T do rule b ==> end end; invariant u; rule b ==> end",
        Want::E05(62),
    ),
    (
        b"ruleset i : T; j : T; k : T do rule b ==> end end; rule b ==> end; invariant u",
        Want::E16(Quantity::Instances, 1001, 1000),
    ),
    (
        b"ruleset a : 0..255; b : 0..255; c : 0..255; d : 0..255; e : 0..255; f : 0..255; g : 0..255; h : 0..255; i : 0..255 do rule true ==> end end",
        Want::E16(Quantity::Instances, u64::MAX, 1000),
    ),
    (
        b"ruleset a : 0..255; b : 0..255; c : 0..255; d : 0..255; e : 0..255; f : 0..255; g : 0..255; h : 0..255 do rule true ==> end end",
        Want::E16(Quantity::Instances, u64::MAX, 1000),
    ),
];

#[test]
fn instances(rt: HostRuntime) -> Result<(), Fail> {
    assert_eq!(rt; wrong(rt.alloc(), &FEW, &INSTANCES), None);
    Ok(())
}

/// The weight of one rule, start state or invariant is at most 10,000: a finite type counts each value.
const WEIGHTS: [(&[u8], Want); 16] = [
    (
        b"invariant forall i : 0..98 do forall j : 0..99 do true end end",
        Want::Typed,
    ),
    (
        b"invariant forall i : 0..99 do forall j : 0..98 do true end end",
        Want::E16(Quantity::Weight, 10_001, 10_000),
    ),
    (
        b"rule forall i : 0..98 do forall j : 0..99 do true end end ==> end",
        Want::Typed,
    ),
    (
        b"rule forall i : 0..98 do forall j : 0..99 do true end end ==> error \"\" end",
        Want::E16(Quantity::Weight, 10_001, 10_000),
    ),
    (
        b"rule begin for i : 0..98 do for j : 0..99 do error \"\" end end end",
        Want::Typed,
    ),
    (
        b"rule b ==> for i : 0..98 do for j : 0..99 do error \"\" end end end",
        Want::E16(Quantity::Weight, 10_001, 10_000),
    ),
    (
        b"startstate for i : 0..98 do for j : 0..99 do error \"\" end end end",
        Want::Typed,
    ),
    (
        b"startstate for i : 0..98 do for j : 0..99 do error \"\" end end; error \"\" end",
        Want::E16(Quantity::Weight, 10_001, 10_000),
    ),
    (
        b"invariant forall h : NODE do forall i : 0..98 do forall j : 0..99 do true end end end",
        Want::E16(Quantity::Weight, 10_001, 10_000),
    ),
    (
        b"invariant forall i : 0..99 do forall j : 0..98 do 1 end end",
        Want::E07(51),
    ),
    (
        b"rule forall i : 0..98 do forall j : 0..99 do true end end ==> u := 1 end",
        Want::E05(63),
    ),
    (
        b"invariant u; invariant forall i : 0..99 do forall j : 0..98 do true end end",
        Want::E05(11),
    ),
    (
        b"invariant forall i : 0..99 do forall j : 0..98 do true end end; invariant u",
        Want::E16(Quantity::Weight, 10_001, 10_000),
    ),
    (
        b"invariant forall i : 0..99 do forall j : 0..98 do true end end & forall e : enum { A, A } do true end",
        Want::E16(Quantity::Weight, 10_005, 10_000),
    ),
    (
        b"ruleset i : T; j : 0..10; k : T do invariant forall i : 0..99 do forall j : 0..98 do true end end end",
        Want::E16(Quantity::Instances, 1100, 1000),
    ),
    (
        b"startstate for i : 0..255 do for i : 0..255 do for i : 0..255 do for i : 0..255 do for i : 0..255 do for i : 0..255 do for i : 0..255 do for i : 0..255 do for i : 0..255 do error \"\" end end end end end end end end end end",
        Want::E16(Quantity::Weight, u64::MAX, 10_000),
    ),
];

#[test]
fn weights(rt: HostRuntime) -> Result<(), Fail> {
    assert_eq!(rt; wrong(rt.alloc(), &FEW, &WEIGHTS), None);
    Ok(())
}
