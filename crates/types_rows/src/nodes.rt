//! The name that is given to the node type.

use crate::answers::{NODES, Want, wrong};
use std::test::Fail;

/// It names a global type that is declared directly as a scalarset: E13 comes after all faults that have a place,
/// and before a missing start state.
const NAMED: [(&[u8], Want); 17] = [
    (b"type NODE : scalarset(2); startstate end", Want::Typed),
    (b"startstate end", Want::E13),
    (b"type T : scalarset(2); startstate end", Want::E13),
    (b"type node : scalarset(2); startstate end", Want::E13),
    (
        b"type T : scalarset(2); NODE : T; startstate end",
        Want::E13,
    ),
    (b"type NODE : enum { A }; startstate end", Want::E13),
    (b"type NODE : 1..2; startstate end", Want::E13),
    (
        b"type NODE : array [scalarset(2)] of boolean; startstate end",
        Want::E13,
    ),
    (b"var NODE : scalarset(2); startstate end", Want::E13),
    (b"const NODE : 2; startstate end", Want::E13),
    (
        b"procedure P(); type NODE : scalarset(2); begin end; startstate end",
        Want::E13,
    ),
    (b"procedure NODE(); end; startstate end", Want::E13),
    (b"type T : boolean; invariant true", Want::E13),
    (b"type NODE : scalarset(2); invariant true", Want::E09),
    (b"type T : boolean; invariant 1", Want::E07(29)),
    (
        b"type NODE : scalarset(2); NODE : scalarset(3); startstate end",
        Want::E06(27),
    ),
    (
        b"type T : 0..1; procedure P(); type NODE : boolean; begin end; type NODE : scalarset(2); startstate end",
        Want::Typed,
    ),
];

#[test]
fn named(rt: HostRuntime) -> Result<(), Fail> {
    assert_eq!(rt; wrong(rt.alloc(), &NODES, &NAMED), None);
    Ok(())
}
