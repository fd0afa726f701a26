//! Lemmas beside the declarations of the world.

use crate::answers::{Want, lemma, world};
use murphi_types::fault::Quantity;
use std::alloc::Global;
use std::test::Fail;

/// The first row that is answered otherwise, if there is one: each is typed beside the same protocol.
fn wrong(alloc: Global, rows: &[(&[u8], Want)]) -> Option<usize> {
    let protocol = match world(alloc) {
        Ok(protocol) => protocol,
        Err(_) => return Some(rows.len()),
    };
    for (i, (text, want)) in rows.iter().enumerate() {
        let answered = match lemma(alloc, &protocol, text) {
            Ok(_) => Want::Typed,
            Err(refused) => refused,
        };
        if answered != *want {
            return Some(i);
        }
    }
    None
}

/// A lemma is a truth value, with the global names of the protocol.
const ROWS: [(&[u8], Want); 22] = [
    (b"forall i : NODE do w[i] end", Want::Typed),
    (b"x = z & F(y) & m[e].f", Want::Typed),
    (b"u", Want::E05(1)),
    (b"r.h = 1", Want::E05(3)),
    (b"D()", Want::E05(1)),
    (b"x", Want::E07(1)),
    (b"T", Want::E07(1)),
    (b"P", Want::E07(1)),
    (b"b & x", Want::E07(5)),
    (b"x = b", Want::E07(5)),
    (b"r = r", Want::E07(1)),
    (b"K()", Want::E07(1)),
    (b"x()", Want::E07(1)),
    (b"forall i : R do true end", Want::E07(12)),
    (b"forall i : 0..x do true end", Want::E08(15)),
    (b"forall i := 2 to 1 do true end", Want::E08(13)),
    (b"forall i : scalarset(0) do true end", Want::E08(12)),
    (b"F()", Want::E11(1)),
    (b"P(b)", Want::E11(1)),
    (b"F(1, u)", Want::E11(1)),
    (
        b"forall i : 0..256 do true end",
        Want::E16(Quantity::Values, 257, 256),
    ),
    (
        b"exists i : 0..256 do u end",
        Want::E16(Quantity::Values, 257, 256),
    ),
];

#[test]
fn rows(rt: HostRuntime) -> Result<(), Fail> {
    assert_eq!(rt; wrong(rt.alloc(), &ROWS), None);
    Ok(())
}

/// Enum names that a lemma writes are global within that lemma alone.
const ENUM_NAMES: [(&[u8], Want); 16] = [
    (b"forall i : enum { I, J } do i = I end", Want::Typed),
    (b"I = 1", Want::E05(1)),
    (b"forall i : enum { I, J } do i = J end", Want::Typed),
    (
        b"(exists i : 0..1 do i = I end) & forall i : enum { I } do true end",
        Want::E05(25),
    ),
    (
        b"forall i : enum { I } do true end & exists j : enum { J } do j = J & I = I end",
        Want::Typed,
    ),
    (
        b"forall i : enum { I } do exists j : enum { J } do i = j end end",
        Want::E07(55),
    ),
    (b"forall i : enum { A } do true end", Want::E06(19)),
    (b"exists i : enum { I, x } do true end", Want::E06(22)),
    (b"exists i : enum { NODE } do true end", Want::E06(19)),
    (b"exists i : enum { F } do true end", Want::E06(19)),
    (b"forall i : enum { I, J, I } do true end", Want::E06(25)),
    (
        b"forall i : enum { I } do true end & exists j : enum { J, I } do true end",
        Want::E06(58),
    ),
    (b"forall x : enum { I } do x = I end", Want::Typed),
    (b"forall I : enum { I } do true end", Want::Typed),
    (b"forall i : enum { A } do i = 1 end", Want::E06(19)),
    (
        b"forall i : record f, f : boolean end do true end",
        Want::E07(12),
    ),
];

#[test]
fn enum_names(rt: HostRuntime) -> Result<(), Fail> {
    assert_eq!(rt; wrong(rt.alloc(), &ENUM_NAMES), None);
    Ok(())
}

/// The weight is limited where the lemma is well typed.
const WEIGHTS: [(&[u8], Want); 6] = [
    (
        b"forall i : 0..98 do forall j : 0..99 do true end end",
        Want::Typed,
    ),
    (
        b"forall i : 0..99 do forall j : 0..98 do true end end",
        Want::E16(Quantity::Weight, 10_001, 10_000),
    ),
    (
        b"! forall i : 0..98 do forall j : 0..99 do true end end",
        Want::E16(Quantity::Weight, 10_001, 10_000),
    ),
    (
        b"forall i : 0..99 do forall j : 0..98 do true end end & forall e : enum { A } do true end",
        Want::E16(Quantity::Weight, 10_004, 10_000),
    ),
    (
        b"forall i : 0..99 do forall j : 0..98 do 1 end end",
        Want::E07(41),
    ),
    (
        b"forall i : 0..99 do forall j : 0..98 do true end end & u",
        Want::E05(56),
    ),
];

#[test]
fn weights(rt: HostRuntime) -> Result<(), Fail> {
    assert_eq!(rt; wrong(rt.alloc(), &WEIGHTS), None);
    Ok(())
}
