//! Typed trees: titles, prefix lengths, and the size of the node type.

use crate::answers::{Around, EXPRESSION, ITEM, ITEMS, NODES, typed_row};
use murphi_ast::text::Text;
use murphi_ast::token::Span;
use murphi_typed::protocol::WrittenSize;
use std::alloc::{AllocError, Global};
use std::test::Fail;

/// The prefix length of the first invariant of a row.
fn claim_prefix(alloc: Global, around: &Around, row: &[u8]) -> Option<u32> {
    match typed_row(alloc, around, row) {
        Ok(protocol) => match protocol.invariants.as_slice() {
            [first, ..] => Some(first.prefix),
            [] => None,
        },
        Err(_) => None,
    }
}

/// The prefix length of the first rule of a row.
fn rule_prefix(alloc: Global, row: &[u8]) -> Option<u32> {
    match typed_row(alloc, &ITEMS, row) {
        Ok(protocol) => match protocol.rules.as_slice() {
            [first, ..] => Some(first.prefix),
            [] => None,
        },
        Err(_) => None,
    }
}

/// The first row whose first invariant has another prefix length, if there is one.
fn wrong_claim(alloc: Global, around: &Around, rows: &[(&[u8], u32)]) -> Option<usize> {
    for (i, (text, want)) in rows.iter().enumerate() {
        if claim_prefix(alloc, around, text) != Some(*want) {
            return Some(i);
        }
    }
    None
}

/// The first row whose first rule has another prefix length, if there is one.
fn wrong_rule(alloc: Global, rows: &[(&[u8], u32)]) -> Option<usize> {
    for (i, (text, want)) in rows.iter().enumerate() {
        if rule_prefix(alloc, text) != Some(*want) {
            return Some(i);
        }
    }
    None
}

/// Of an invariant: the quantifiers over nodes that can be moved to the front, or the deepest nesting of any.
const PREFIXES_OF_INVARIANTS: [(&[u8], u32); 24] = [
    (b"b", 0),
    (b"forall i : NODE do w[i] end", 1),
    (b"exists i : NODE do w[i] end", 1),
    (b"forall i : NODE do forall j : NODE do i = j end end", 2),
    (
        b"(forall i : NODE do w[i] end) & (forall i : NODE do w[i] end)",
        1,
    ),
    (
        b"(forall i : NODE do w[i] end) | (forall i : NODE do w[i] end)",
        2,
    ),
    (
        b"(forall i : NODE do w[i] end) | (forall i : NODE do w[i] end) | (forall i : NODE do w[i] end)",
        3,
    ),
    (
        b"(exists i : NODE do w[i] end) | (forall i : NODE do w[i] end)",
        1,
    ),
    (
        b"(exists i : NODE do w[i] end) -> (forall i : NODE do w[i] end)",
        2,
    ),
    (
        b"(forall i : NODE do w[i] end) -> (exists i : NODE do w[i] end)",
        1,
    ),
    (b"!(exists i : NODE do w[i] end)", 1),
    (
        b"!((exists i : NODE do w[i] end) & (exists i : NODE do w[i] end))",
        2,
    ),
    (
        b"!((exists i : NODE do w[i] end) | (exists i : NODE do w[i] end))",
        1,
    ),
    (
        b"!((forall i : NODE do w[i] end) -> (exists i : NODE do w[i] end))",
        1,
    ),
    (
        b"!((forall i : NODE do w[i] end) | (forall i : NODE do w[i] end) -> b)",
        2,
    ),
    (
        b"b ? (forall i : NODE do w[i] end) : (forall i : NODE do w[i] end)",
        1,
    ),
    (
        b"(exists i : NODE do w[i] end) ? (forall i : NODE do w[i] end) : b",
        2,
    ),
    (
        b"(forall i : NODE do w[i] end) ? b : (forall i : NODE do w[i] end)",
        2,
    ),
    (
        b"(forall i : NODE do w[i] end) = (forall i : NODE do w[i] end)",
        1,
    ),
    (b"forall k : 0..1 do forall i : NODE do w[i] end end", 1),
    (
        b"forall k : E do (forall i : NODE do w[i] end) | (forall i : NODE do w[i] end) end",
        2,
    ),
    (b"exists k : 0..1 do forall i : NODE do w[i] end end", 1),
    (b"exists k : NODE do forall i : NODE do w[i] end end", 2),
    (b"w[n] & isundefined(w[n])", 0),
];

#[test]
fn prefixes_of_invariants(rt: HostRuntime) -> Result<(), Fail> {
    assert_eq!(rt;
        wrong_claim(rt.alloc(), &EXPRESSION, &PREFIXES_OF_INVARIANTS),
        None
    );
    Ok(())
}

/// The same with calls opened: an argument counts where it stands, and wherever its formal does.
const PREFIXES_OF_CALLS: [(&[u8], u32); 9] = [
    (b"N()", 1),
    (b"exists i : NODE do N() end", 2),
    (b"forall i : NODE do N() -> w[i] end", 2),
    (b"M(b)", 1),
    (b"M(exists i : NODE do w[i] end)", 2),
    (b"M(N())", 2),
    (b"M(M(N()))", 3),
    (b"forall i : NODE do M(w[i]) end", 2),
    (b"F(N() ? 1 : 2)", 1),
];

#[test]
fn prefixes_of_calls(rt: HostRuntime) -> Result<(), Fail> {
    assert_eq!(rt;
        wrong_claim(rt.alloc(), &EXPRESSION, &PREFIXES_OF_CALLS),
        None
    );
    Ok(())
}

/// Of a rule: its node parameters, and the deepest nesting in guard and body.
const PREFIXES_OF_RULES: [(&[u8], u32); 15] = [
    (b"rule b ==> end", 0),
    (b"ruleset i : NODE do rule b ==> end end", 1),
    (
        b"ruleset i : NODE; k : 0..1; j : NODE do rule b ==> end end",
        2,
    ),
    (
        b"ruleset i : NODE do ruleset j : NODE do rule b ==> end end end",
        2,
    ),
    (
        b"ruleset i : NODE do rule exists j : NODE do i = j end ==> end end",
        2,
    ),
    (
        b"ruleset i : NODE do rule b ==> for j : NODE do w[j] := b end end end",
        2,
    ),
    (
        b"ruleset i : NODE do rule exists j : NODE do i = j end ==> for k : NODE do w[k] := b end end end",
        2,
    ),
    (
        b"rule b ==> for i : NODE do for j : NODE do w[j] := i = j end end end",
        2,
    ),
    (
        b"rule b ==> for k : NODE do w[k] := exists i : NODE do w[i] end end end",
        2,
    ),
    (
        b"rule b ==> for k : 0..3 do for i : NODE do w[i] := b end end end",
        1,
    ),
    (b"rule N() ==> end", 1),
    (b"rule b ==> for i : NODE do w[i] := N() end end", 2),
    (b"rule b ==> put exists i : NODE do w[i] end end", 1),
    (
        b"rule b ==> if exists i : NODE do w[i] end then else for i : NODE do end end end",
        1,
    ),
    (
        b"rule b ==> switch x case 1 : for i : NODE do w[i] := M(exists i : NODE do w[i] end) end end end",
        3,
    ),
];

#[test]
fn prefixes_of_rules(rt: HostRuntime) -> Result<(), Fail> {
    assert_eq!(rt; wrong_rule(rt.alloc(), &PREFIXES_OF_RULES), None);
    Ok(())
}

/// Node parameters of an invariant come before its own quantifiers.
const PREFIXES_UNDER_RULESETS: [(&[u8], u32); 3] = [
    (
        b"ruleset i : NODE; j : NODE do invariant i != j -> forall k : NODE do w[k] end end",
        3,
    ),
    (b"ruleset i : NODE; k : 0..1 do invariant w[i] end", 1),
    (
        b"ruleset i : NODE do invariant exists j : NODE do i = j end end",
        2,
    ),
];

#[test]
fn prefixes_under_rulesets(rt: HostRuntime) -> Result<(), Fail> {
    assert_eq!(rt;
        wrong_claim(rt.alloc(), &ITEMS, &PREFIXES_UNDER_RULESETS),
        None
    );
    Ok(())
}

/// One more title behind others.
fn add(all: &mut Vec<u8>, title: &Text) -> Result<(), AllocError> {
    all.push(b'|')?;
    all.extend_from_slice(title.bytes())?;
    Ok(())
}

/// The titles of the rules, of the start states, and of the invariants of a row.
fn titles(alloc: Global, row: &[u8]) -> Result<Vec<u8>, AllocError> {
    let mut all = Vec::new(alloc);
    if let Ok(protocol) = typed_row(alloc, &ITEM, row) {
        for one in protocol.rules.as_slice() {
            add(&mut all, &one.title)?;
        }
        all.push(b';')?;
        for one in protocol.starts.as_slice() {
            add(&mut all, &one.title)?;
        }
        all.push(b';')?;
        for one in protocol.invariants.as_slice() {
            add(&mut all, &one.title)?;
        }
    }
    Ok(all)
}

/// A title is the string, unless it is empty, begins with `#`, or is the title of an earlier item of its kind; then
/// it is the number among its kind. A start state without a string stands behind each row.
const TITLES_OF_ITEMS: [(&[u8], &[u8]); 10] = [
    (b"rule \"A\" true ==> end", b"|A;|#1;"),
    (b"rule true ==> end; rule \"\" true ==> end", b"|#1|#2;|#1;"),
    (
        b"rule \"A\" true ==> end; rule \"A\" true ==> end; rule \"a\" true ==> end",
        b"|A|#2|a;|#1;",
    ),
    (
        b"rule \"#9\" true ==> end; rule \"B#\" true ==> end",
        b"|#1|B#;|#1;",
    ),
    (
        b"ruleset i : 0..1 do rule \"A\" true ==> end; rule \"B\" true ==> end end; rule \"B\" true ==> end",
        b"|A|B|#3;|#1;",
    ),
    (
        b"startstate \"A\" end; invariant \"A\" true; rule \"A\" true ==> end",
        b"|A;|A|#2;|A",
    ),
    (
        b"invariant true; rule true ==> end; startstate \"B\" end; rule true ==> end",
        b"|#1|#2;|B|#2;|#1",
    ),
    (
        b"invariant \"A\" true; ruleset i : 0..1 do invariant \"A\" true; ruleset j : 0..1 do invariant \"C\" true end end; invariant true",
        b";|#1;|A|#2|C|#4",
    ),
    (b"startstate \"A\" end; startstate \"A\" end", b";|A|#2|#3;"),
    (
        b"rule \"A b\" true ==> end; rule \" \" true ==> end",
        b"|A b| ;|#1;",
    ),
];

#[test]
fn titles_of_items(rt: HostRuntime) -> Result<(), Fail> {
    for (text, want) in TITLES_OF_ITEMS.as_slice() {
        let all = titles(rt.alloc(), text)?;
        assert!(rt; all.as_slice() == *want);
    }
    Ok(())
}

/// The columns of the first three places, 0 where there are fewer.
pub fn columns(all: &[Span]) -> [u32; 3] {
    let mut out = [0; 3];
    for (i, at) in all.iter().enumerate() {
        if i < 3 {
            out[i] = at.column;
        }
    }
    out
}

/// Where the constant that is the size of the node type is used.
fn uses(alloc: Global, row: &[u8]) -> Option<[u32; 3]> {
    match typed_row(alloc, &NODES, row) {
        Ok(protocol) => match &protocol.node {
            Some(node) => Some(columns(node.uses.as_slice())),
            None => None,
        },
        Err(_) => None,
    }
}

/// The first row that has other uses, if there is one.
fn wrong_uses(alloc: Global, rows: &[(&[u8], [u32; 3])]) -> Option<usize> {
    for (i, (text, want)) in rows.iter().enumerate() {
        if uses(alloc, text) != Some(*want) {
            return Some(i);
        }
    }
    None
}

/// It is used wherever its name stands for it, but for the declaration of the node type, in text order; the size has
/// no constant of its own where it is not one name.
const USES_OF_THE_SIZE: [(&[u8], [u32; 3]); 14] = [
    (
        b"const D : 2; type NODE : scalarset(D); startstate end",
        [0, 0, 0],
    ),
    (
        b"const D : 2; type NODE : scalarset((D)); startstate end",
        [0, 0, 0],
    ),
    (
        b"const D : 2; type NODE : scalarset(D); var c : 0..D; startstate c := D; put D end",
        [51, 70, 77],
    ),
    (
        b"const D : 2; G : D; type NODE : scalarset(D); startstate end",
        [18, 0, 0],
    ),
    (
        b"const D : 2; type T : scalarset(D); NODE : scalarset(D); startstate end",
        [33, 0, 0],
    ),
    (
        b"const D : 2; type NODE : scalarset(D); procedure P(var D : boolean); D := true; end; startstate end",
        [0, 0, 0],
    ),
    (
        b"const D : 2; type NODE : scalarset(D); function F(v : 0..D) : boolean; return isundefined(D); end; startstate end",
        [58, 91, 0],
    ),
    (
        b"const D : 2; type NODE : scalarset(D); ruleset i : 0..D; D : 0..1 do rule D = 0 ==> end end; startstate end",
        [55, 0, 0],
    ),
    (
        b"const D : 2; type NODE : scalarset(D); invariant forall D : 0..D do D = 0 end & D = 2; startstate end",
        [64, 81, 0],
    ),
    (
        b"const D : 2; type NODE : scalarset(D); startstate for D : 0..D do put D end; assert D = 2 end",
        [62, 85, 0],
    ),
    (
        b"const D : 2; type NODE : scalarset(D); rule D = 2 ==> const D : D; begin assert D = 2 end; startstate end",
        [45, 65, 0],
    ),
    (
        b"const D : 2; type NODE : scalarset(2); var c : 0..D; startstate end",
        [0, 0, 0],
    ),
    (
        b"const D : 2; type NODE : scalarset(1 + D); var c : 0..D; startstate end",
        [0, 0, 0],
    ),
    (
        b"const D : 2; d : 3; type NODE : scalarset(D); var c : record D : boolean end; startstate c.D := d = D end",
        [101, 0, 0],
    ),
];

#[test]
fn uses_of_the_size(rt: HostRuntime) -> Result<(), Fail> {
    assert_eq!(rt; wrong_uses(rt.alloc(), &USES_OF_THE_SIZE), None);
    Ok(())
}

/// How a size is written.
#[derive(Debug, Clone, Copy, PartialEq, Eq)]
enum Size {
    Number,
    Constant,
    Other,
    Absent,
}

/// How the size of the node type is written, and the column of its first token.
fn size_of_nodes(alloc: Global, row: &[u8]) -> (Size, u32) {
    match typed_row(alloc, &NODES, row) {
        Ok(protocol) => match &protocol.node {
            Some(node) => match &node.size {
                WrittenSize::Number => (Size::Number, node.size_at.column),
                WrittenSize::Constant(_) => (Size::Constant, node.size_at.column),
                WrittenSize::Other => (Size::Other, node.size_at.column),
            },
            None => (Size::Absent, 0),
        },
        Err(_) => (Size::Absent, 0),
    }
}

/// The first row whose size is written otherwise, if there is one.
fn wrong_size(alloc: Global, rows: &[(&[u8], (Size, u32))]) -> Option<usize> {
    for (i, (text, want)) in rows.iter().enumerate() {
        if size_of_nodes(alloc, text) != *want {
            return Some(i);
        }
    }
    None
}

const WRITTEN_SIZES: [(&[u8], (Size, u32)); 6] = [
    (
        b"type NODE : scalarset(2); startstate end",
        (Size::Number, 23),
    ),
    (
        b"type NODE : scalarset(((2))); startstate end",
        (Size::Number, 25),
    ),
    (
        b"const D : 2; type NODE : scalarset(D); startstate end",
        (Size::Constant, 36),
    ),
    (
        b"const D : 2; type NODE : scalarset((D)); startstate end",
        (Size::Constant, 37),
    ),
    (
        b"type NODE : scalarset(1 + 1); startstate end",
        (Size::Other, 23),
    ),
    (
        b"const D : 2; type NODE : scalarset(-(-D)); startstate end",
        (Size::Other, 36),
    ),
];

#[test]
fn written_sizes(rt: HostRuntime) -> Result<(), Fail> {
    assert_eq!(rt; wrong_size(rt.alloc(), &WRITTEN_SIZES), None);
    Ok(())
}
