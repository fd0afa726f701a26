//! Rows of the rules about the size of the node type and about `clear`: S1 to S3, and what is judged without a node
//! type.

use crate::answers::{DECLARED, Want, lemma, wrong};
use std::alloc::Global;
use std::test::Fail;

/// S1: the constant that is the size of NODE occurs only in its own declaration and in that of NODE.
const USES_OF_THE_SIZE: [(&[u8], Want); 9] = [
    (
        b"const NODE_NUM : 3;\ntype NODE : scalarset(NODE_NUM);\nvar c : 0..NODE_NUM;\nstartstate \"Init\" c := 0; end;\n",
        Want::Broken(1, 3, 12),
    ),
    (
        b"const NODE_NUM : 3; L : 3;\ntype NODE : scalarset(NODE_NUM);\nvar c : 0..L;\nstartstate \"Init\" c := 0; end;\n",
        Want::Whole,
    ),
    (
        b"const K : 3; type NODE : scalarset(K); var c : 0..3; b : boolean;\nstartstate c := K end",
        Want::Broken(1, 2, 17),
    ),
    (
        b"const K : 3; type NODE : scalarset(K); var c : 0..3; b : boolean;\nstartstate b := isundefined(K) end",
        Want::Broken(1, 2, 29),
    ),
    (
        b"const K : 3; type NODE : scalarset(K); var c : 0..3; b : boolean;\nstartstate put K end",
        Want::Broken(1, 2, 16),
    ),
    (
        b"const K : 3; type NODE : scalarset(K); var c : 0..3; b : boolean;\nstartstate var t : 0..K; begin end",
        Want::Broken(1, 2, 23),
    ),
    (
        b"const K : 3; type NODE : scalarset(K); var c : 0..3; b : boolean;\nstartstate var K : boolean; begin K := true end",
        Want::Whole,
    ),
    (
        b"const K : 3; L : K; type NODE : scalarset(K); startstate end",
        Want::Broken(1, 1, 18),
    ),
    (
        b"const K : 3; type NODE : scalarset(3); var c : 0..K; startstate c := K end",
        Want::Whole,
    ),
];

#[test]
fn uses_of_the_size(rt: HostRuntime) -> Result<(), Fail> {
    assert_eq!(rt; wrong(rt.alloc(), b"", b"NODE", &USES_OF_THE_SIZE), None);
    Ok(())
}

/// S2: the size of NODE is one number or one constant name.
const FORMS_OF_THE_SIZE: [(&[u8], Want); 5] = [
    (
        b"type NODE : scalarset(1 + 2); startstate end",
        Want::Broken(2, 1, 23),
    ),
    (
        b"const K : 3; type NODE : scalarset(K + 0); startstate end",
        Want::Broken(2, 1, 36),
    ),
    (b"type NODE : scalarset(3); startstate end", Want::Whole),
    (b"type NODE : scalarset((3)); startstate end", Want::Whole),
    (
        b"const K : 3; type NODE : scalarset(K); startstate end",
        Want::Whole,
    ),
];

#[test]
fn forms_of_the_size(rt: HostRuntime) -> Result<(), Fail> {
    assert_eq!(rt; wrong(rt.alloc(), b"", b"NODE", &FORMS_OF_THE_SIZE), None);
    Ok(())
}

/// S3: `clear` is not applied to what holds scalarset values; an index type does not count.
const CLEARED: [(&[u8], Want); 10] = [
    (b"startstate clear n end", Want::Broken(3, 5, 18)),
    (b"startstate clear d end", Want::Broken(3, 5, 18)),
    (b"startstate clear P end", Want::Broken(3, 5, 18)),
    (b"startstate clear q end", Want::Broken(3, 5, 18)),
    (b"startstate clear q.h end", Want::Broken(3, 5, 18)),
    (b"startstate clear A end", Want::Whole),
    (b"startstate clear M; clear S; clear c end", Want::Whole),
    (b"startstate undefine n; undefine P end", Want::Whole),
    (
        b"procedure X(); clear n; end; startstate end",
        Want::Broken(3, 5, 22),
    ),
    (
        b"startstate end; rule true ==> if b then clear P[b] end end",
        Want::Broken(3, 5, 47),
    ),
];

#[test]
fn cleared(rt: HostRuntime) -> Result<(), Fail> {
    assert_eq!(rt; wrong(rt.alloc(), DECLARED, b"NODE", &CLEARED), None);
    Ok(())
}

/// Without a node type only S3 is judged.
const WITHOUT_NODES: [(&[u8], Want); 3] = [
    (b"startstate clear n end", Want::Broken(3, 5, 18)),
    (b"startstate for i : NODE do c := 0 end end", Want::Whole),
    (
        b"function F() : boolean; for i : NODE do end; return true; end; startstate end",
        Want::Whole,
    ),
];

#[test]
fn without_nodes(rt: HostRuntime) -> Result<(), Fail> {
    assert_eq!(rt; wrong(rt.alloc(), DECLARED, b"", &WITHOUT_NODES), None);
    Ok(())
}

/// A counter in a loop over nodes.
const COUNTING: [(&[u8], Want); 1] = [(
    b"type NODE : scalarset(3);\nvar c : 0..7;\nstartstate \"Init\" c := 0; end;\nrule \"Count\" true ==> for i : NODE do c := c + 1; end; end;\n",
    Want::Broken(5, 4, 39),
)];

#[test]
fn counting(rt: HostRuntime) -> Result<(), Fail> {
    assert_eq!(rt; wrong(rt.alloc(), b"", b"NODE", &COUNTING), None);
    Ok(())
}

/// A text whose node type has a constant for its size.
const SIZED: &[u8] = b"const K : 3; type NODE : scalarset(K); var c : 0..3; startstate end";

/// S1 of a lemma: the first place where it uses the size.
const LEMMAS: [(&[u8], Want); 3] = [
    (b"forall i : NODE do c = 3 end", Want::Whole),
    (b"c < K", Want::Broken(1, 1, 5)),
    (b"exists j := 0 to K do j = K end", Want::Broken(1, 1, 18)),
];

/// The first formula over the sized text that is answered otherwise, if there is one.
fn wrong_lemma(alloc: Global, rows: &[(&[u8], Want)]) -> Option<usize> {
    for (i, (formula, want)) in rows.iter().enumerate() {
        if lemma(alloc, SIZED, formula) != *want {
            return Some(i);
        }
    }
    None
}

#[test]
fn lemmas(rt: HostRuntime) -> Result<(), Fail> {
    assert_eq!(rt; wrong_lemma(rt.alloc(), &LEMMAS), None);
    Ok(())
}
