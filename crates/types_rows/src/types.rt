//! Types, as they are written.

use crate::answers::{ALONE, NODES, TYPE, Want, answer, wrong};
use murphi_types::fault::Quantity;
use std::alloc::{AllocError, Global};
use std::test::Fail;

const LETTERS: [u8; 20] = *b"ABCDEFGHIJKLMNOPQRST";

/// Ranges of variables, in whole texts.
const RANGES: [(&[u8], Want); 3] = [
    (
        b"var a : 0..255; b : 0..256; startstate end;",
        Want::E16(Quantity::Values, 257, 256),
    ),
    (b"var a : 0..255; b : 1..256; startstate end;", Want::Typed),
    (b"var a : 3..2; startstate end;", Want::E08(9)),
];

#[test]
fn ranges(rt: HostRuntime) -> Result<(), Fail> {
    assert_eq!(rt; wrong(rt.alloc(), &ALONE, &RANGES), None);
    Ok(())
}

/// The type of a variable beside the declarations of the world.
const TYPES: [(&[u8], Want); 17] = [
    (b"boolean", Want::Typed),
    (b"E", Want::Typed),
    (
        b"array [boolean] of array [S] of array [NODE] of array [E] of T",
        Want::Typed,
    ),
    (b"record end", Want::Typed),
    (
        b"record u, v : R; w : record u : boolean end; end",
        Want::Typed,
    ),
    (b"U", Want::E05(1)),
    (b"record u : boolean; v : u end", Want::E05(25)),
    (b"x", Want::E07(1)),
    (b"C", Want::E07(1)),
    (b"A", Want::E07(1)),
    (b"F", Want::E07(1)),
    (b"P", Want::E07(1)),
    (b"record u : x end", Want::E07(12)),
    (b"array [0..1] of x", Want::E07(17)),
    (b"array [R] of boolean", Want::E07(8)),
    (b"array [record u : boolean end] of boolean", Want::E07(8)),
    (b"array [array [0..1] of boolean] of boolean", Want::E07(8)),
];

#[test]
fn types(rt: HostRuntime) -> Result<(), Fail> {
    assert_eq!(rt; wrong(rt.alloc(), &TYPE, &TYPES), None);
    Ok(())
}

/// Low above high, and scalarsets below 1, at the type's first token; more than 256 values.
const SIZES: [(&[u8], Want); 20] = [
    (b"3..2", Want::E08(1)),
    (b"(3)..2", Want::E08(2)),
    (b"((0 - 1) * 1)..-2", Want::E08(3)),
    (b"3..C", Want::Typed),
    (b"-1..-1", Want::Typed),
    (b"scalarset(0)", Want::E08(1)),
    (b"scalarset(-1)", Want::E08(1)),
    (b"scalarset(C - 3)", Want::E08(1)),
    (b"scalarset(1)", Want::Typed),
    (b"0..255", Want::Typed),
    (b"0..256", Want::E16(Quantity::Values, 257, 256)),
    (b"-1..255", Want::E16(Quantity::Values, 257, 256)),
    (b"0..32767", Want::E16(Quantity::Values, 32_768, 256)),
    (
        b"-32767 - 1..32767",
        Want::E16(Quantity::Values, 65_536, 256),
    ),
    (b"scalarset(256)", Want::Typed),
    (b"scalarset(257)", Want::E16(Quantity::Values, 257, 256)),
    (
        b"array [0..256] of boolean",
        Want::E16(Quantity::Values, 257, 256),
    ),
    (
        b"record u : boolean; v : scalarset(257) end",
        Want::E16(Quantity::Values, 257, 256),
    ),
    (
        b"array [0..256] of u",
        Want::E16(Quantity::Values, 257, 256),
    ),
    (b"array [u..256] of array [0..256] of boolean", Want::E05(8)),
];

#[test]
fn sizes(rt: HostRuntime) -> Result<(), Fail> {
    assert_eq!(rt; wrong(rt.alloc(), &TYPE, &SIZES), None);
    Ok(())
}

/// The written size of the node type is a constant of at least 1, without the limit of values; where the name that
/// is given names nothing, the text is typed as without one.
const NODE_SIZES: [(&[u8], Want); 11] = [
    (b"type NODE : scalarset(2); startstate end", Want::Typed),
    (
        b"const D : 2; type NODE : scalarset(D); startstate end",
        Want::Typed,
    ),
    (b"type NODE : scalarset(1 + 1); startstate end", Want::Typed),
    (b"type NODE : scalarset(257); startstate end", Want::Typed),
    (b"type NODE : scalarset(32767); startstate end", Want::Typed),
    (b"type NODE : scalarset(0); startstate end", Want::E08(13)),
    (
        b"type NODE : scalarset(true); startstate end",
        Want::E08(23),
    ),
    (b"type NODE : scalarset(D); startstate end", Want::E05(23)),
    (
        b"type node : scalarset(257); startstate end",
        Want::E16(Quantity::Values, 257, 256),
    ),
    (
        b"type NODE : scalarset(2); T : scalarset(257); startstate end",
        Want::E16(Quantity::Values, 257, 256),
    ),
    (
        b"procedure P(); type NODE : scalarset(257); begin end; startstate end",
        Want::E16(Quantity::Values, 257, 256),
    ),
];

#[test]
fn node_sizes(rt: HostRuntime) -> Result<(), Fail> {
    assert_eq!(rt; wrong(rt.alloc(), &NODES, &NODE_SIZES), None);
    Ok(())
}

fn letter(i: usize) -> u8 {
    match LETTERS.get(i) {
        Some(letter) => *letter,
        None => b'Z',
    }
}

/// An enum of so many names, each of three letters.
fn enum_of(alloc: Global, count: usize) -> Result<Vec<u8>, AllocError> {
    let mut text = Vec::from_slice(alloc, b"enum { ".as_slice())?;
    for i in 0..count {
        if i > 0 {
            text.push(b',')?;
        }
        text.push(b'a')?;
        text.push(letter(i / 20))?;
        text.push(letter(i % 20))?;
    }
    text.push(b'}')?;
    Ok(text)
}

#[test]
fn enums(rt: HostRuntime) -> Result<(), Fail> {
    let most = enum_of(rt.alloc(), 256)?;
    assert_eq!(rt; answer(rt.alloc(), &TYPE, &most), Want::Typed);
    let more = enum_of(rt.alloc(), 257)?;
    assert_eq!(rt;
        answer(rt.alloc(), &TYPE, &more),
        Want::E16(Quantity::Values, 257, 256)
    );
    Ok(())
}
