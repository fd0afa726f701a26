//! Scripts that are refused.

use crate::answers::{PROTOCOL, WITHOUT_RULES, Want, wrong};
use std::test::Fail;

/// At words, titles and ends of lines.
const WORDS: [(&[u8], Want); 17] = [
    (b"", Want::E19(1, 1)),
    (b"-- nothing\n", Want::E19(2, 1)),
    (b"start", Want::E19(1, 6)),
    (b"Start \"S0\";", Want::E19(1, 1)),
    (b"fire \"Q\";", Want::E19(1, 1)),
    (b"start S0;", Want::E19(1, 7)),
    (b"start \"T\";", Want::E19(1, 7)),
    (b"start \"Q\";", Want::E19(1, 7)),
    (b"start \"S0\"", Want::E19(1, 11)),
    (b"start \"S0\"; start \"S0\";", Want::E19(1, 13)),
    (b"start \"S0\"; FIRE \"Q\";", Want::E19(1, 13)),
    (b"start \"S0\"; while", Want::E19(1, 13)),
    (b"start \"S0\"; ;", Want::E19(1, 13)),
    (b"start \"S0\"; fire \"S0\";", Want::E19(1, 18)),
    (b"start \"S0\"; fire \"#5\";", Want::E19(1, 18)),
    (b"start \"S0\"; fire \"Q\" fire \"Q\";", Want::E19(1, 22)),
    (b"start \"S0\"; fire \"Q\"", Want::E19(1, 21)),
];

#[test]
fn words_out_of_place(rt: HostRuntime) -> Result<(), Fail> {
    assert_eq!(rt; wrong(rt.alloc(), b"NODE", PROTOCOL, &WORDS), None);
    Ok(())
}

/// At values: each counts as one token, at its first.
const VALUES: [(&[u8], Want); 22] = [
    (b"start \"S0\" 1;", Want::E19(1, 12)),
    (b"start \"S1\";", Want::E19(1, 11)),
    (b"start \"S1\" 0;", Want::E19(1, 12)),
    (b"start \"S1\" 3;", Want::E19(1, 12)),
    (b"start \"S1\" 1 2;", Want::E19(1, 14)),
    (b"start \"S0\"; fire \"R\" -3;", Want::E19(1, 22)),
    (b"start \"S0\"; fire \"R\" 4;", Want::E19(1, 22)),
    (b"start \"S0\"; fire \"R\" -;", Want::E19(1, 23)),
    (b"start \"S0\"; fire \"R\" - -2;", Want::E19(1, 24)),
    (b"start \"S0\"; fire \"R\" true;", Want::E19(1, 22)),
    (b"start \"S0\"; fire \"Up\" -1;", Want::E19(1, 23)),
    (b"start \"S0\"; fire \"Up\" -;", Want::E19(1, 23)),
    (b"start \"S0\"; fire \"N\" -1;", Want::E19(1, 22)),
    (b"start \"S0\"; fire \"Q\" -1;", Want::E19(1, 22)),
    (b"start \"S0\"; fire \"C\" Red true;", Want::E19(1, 22)),
    (b"start \"S0\"; fire \"C\" 0 true;", Want::E19(1, 22)),
    (b"start \"S0\"; fire \"C\" red D;", Want::E19(1, 26)),
    (b"start \"S0\"; fire \"D\" 1 D_3;", Want::E19(1, 24)),
    (b"start \"S0\"; fire \"D\" 1 D_0;", Want::E19(1, 24)),
    (b"start \"S0\"; fire \"D\" 1 D_02;", Want::E19(1, 24)),
    (b"start \"S0\"; fire \"D\" 1 2;", Want::E19(1, 24)),
    (b"start \"S0\"; fire \"U\" D_1;", Want::E19(1, 22)),
];

#[test]
fn values_out_of_place(rt: HostRuntime) -> Result<(), Fail> {
    assert_eq!(rt; wrong(rt.alloc(), b"NODE", PROTOCOL, &VALUES), None);
    Ok(())
}

/// What is no token comes first.
const BYTES: [(&[u8], Want); 4] = [
    (b"start \"S0\"; fire \"R\" 32768;", Want::E03(1, 22)),
    (b"fire # ;", Want::E03(1, 6)),
    (b"fire \x01", Want::E02(1, 6)),
    (b"start \"S0\"; /*", Want::E03(1, 13)),
];

#[test]
fn bytes_that_are_no_tokens(rt: HostRuntime) -> Result<(), Fail> {
    assert_eq!(rt; wrong(rt.alloc(), b"NODE", PROTOCOL, &BYTES), None);
    Ok(())
}

const NO_RULES: [(&[u8], Want); 3] = [
    (b"start \"S0\";", Want::Lines(1)),
    (b"start \"S0\"; fire \"Q\";", Want::E19(1, 13)),
    (b"start \"S0\"; fire", Want::E19(1, 13)),
];

#[test]
fn a_protocol_without_rules(rt: HostRuntime) -> Result<(), Fail> {
    assert_eq!(rt; wrong(rt.alloc(), b"", WITHOUT_RULES, &NO_RULES), None);
    Ok(())
}
