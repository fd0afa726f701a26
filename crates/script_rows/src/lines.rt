//! Scripts that are read, and what their lines say.

use crate::answers::{PROTOCOL, Want, unlike, wrong};
use std::test::Fail;

const READ: [(&[u8], Want); 14] = [
    (b"start \"S0\";", Want::Lines(1)),
    (b"-- first\nstart /* a node */ \"S1\" 2 ;\n", Want::Lines(1)),
    (b"start \"S0\"; fire \"R\" -2;", Want::Lines(2)),
    (b"start \"S0\"; fire \"R\" - 1;", Want::Lines(2)),
    (b"start \"S0\"; fire \"R\" -0;", Want::Lines(2)),
    (b"start \"S0\"; fire \"R\" 0003;", Want::Lines(2)),
    (b"start \"S0\"; fire \"N\" 1;", Want::Lines(2)),
    (b"start \"S0\"; fire \"C\" red true;", Want::Lines(2)),
    (b"start \"S0\"; fire \"C\" K1 FALSE;", Want::Lines(2)),
    (b"start \"S0\"; fire \"D\" 1 D_2;", Want::Lines(2)),
    (b"start \"S0\"; fire \"U\" scalarset_1;", Want::Lines(2)),
    (b"start \"S0\"; fire \"#6\";", Want::Lines(2)),
    (b"start \"S0\"; fire \"Q\"; fire \"Q\";", Want::Lines(3)),
    (b"start\"S0\";fire\"Q\";fire\"R\"3;", Want::Lines(3)),
];

#[test]
fn scripts_that_are_read(rt: HostRuntime) -> Result<(), Fail> {
    assert_eq!(rt; wrong(rt.alloc(), b"NODE", PROTOCOL, &READ), None);
    Ok(())
}

/// Rules are numbered in text order from 0, and so are start states; values are as they are printed.
const SAID: [(usize, &[u8]); 8] = [
    (1, b" 2"),
    (0, b" -2"),
    (3, b" green false"),
    (2, b" 1"),
    (5, b""),
    (0, b" 0"),
    (4, b" 1 D_2"),
    (7, b" scalarset_2"),
];

#[test]
fn what_lines_say(rt: HostRuntime) -> Result<(), Fail> {
    let script =
        b"start \"S1\" 2; fire \"R\" -2; fire \"C\" green false; fire \"N\" 1; fire \"#6\"; fire \"R\" -0;
      fire \"D\" 1 D_2; fire \"U\" scalarset_2;";
    assert_eq!(rt; unlike(rt.alloc(), script, &SAID), None);
    Ok(())
}
