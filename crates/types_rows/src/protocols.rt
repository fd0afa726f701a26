//! Whole protocols: a lock, and German's protocol.

use crate::answers::{NODES, Want, answer, lemma, typed};
use crate::samples::{GERMAN, MUTEX};
use crate::trees::columns;
use murphi_typed::protocol::{Parameter, Rule, Start, Typed};
use murphi_typed::types::Simple;
use std::alloc::Global;
use std::test::Fail;
use type_cells::cell_count;

/// How many values a parameter has that is no node.
fn values(over: Simple) -> u64 {
    match over {
        Simple::Listed { count, .. } => u64::from(count),
        Simple::Scalarset { count, .. } => u64::from(count),
        Simple::Truth => 2,
        Simple::Range { .. } => 0,
        Simple::Node => 1,
    }
}

fn instances(params: &[Parameter]) -> u64 {
    let mut count: u64 = 1;
    for one in params {
        count = count.saturating_mul(values(one.over));
    }
    count
}

/// How many instances rules have, and their longest prefix.
fn rules(all: &[Rule]) -> (u64, u32) {
    let mut count: u64 = 0;
    let mut longest = 0;
    for one in all {
        count = count.saturating_add(instances(one.params.as_slice()));
        longest = longest.max(one.prefix);
    }
    (count, longest)
}

/// How many instances start states have, and their longest prefix.
fn starts(all: &[Start]) -> (u64, u32) {
    let mut count: u64 = 0;
    let mut longest = 0;
    for one in all {
        count = count.saturating_add(instances(one.params.as_slice()));
        longest = longest.max(one.prefix);
    }
    (count, longest)
}

/// Instances and longest prefix of the rules and of the start states, how many invariants there are, and how many
/// cells with two and with three nodes.
#[derive(Debug, Clone, Copy, PartialEq, Eq)]
struct Counts {
    rules: (u64, u32),
    starts: (u64, u32),
    invariants: usize,
    cells: (u64, u64),
}

fn counts_of(protocol: &Typed) -> Counts {
    Counts {
        rules: rules(protocol.rules.as_slice()),
        starts: starts(protocol.starts.as_slice()),
        invariants: protocol.invariants.len(),
        cells: (cell_count(protocol, 2), cell_count(protocol, 3)),
    }
}

/// The counts of a text with a node type.
fn counted(alloc: Global, text: &[u8]) -> Option<Counts> {
    match typed(alloc, b"NODE", text, 1) {
        Ok(protocol) => Some(counts_of(&protocol)),
        Err(_) => None,
    }
}

#[test]
fn lock(rt: HostRuntime) -> Result<(), Fail> {
    let want = Counts {
        rules: (4, 1),
        starts: (1, 1),
        invariants: 1,
        cells: (3, 4),
    };
    assert_eq!(rt; counted(rt.alloc(), MUTEX), Some(want));
    Ok(())
}

/// A store for each of two data, and eleven other rules; two start states; two claims for each node and one more.
#[test]
fn german(rt: HostRuntime) -> Result<(), Fail> {
    let want = Counts {
        rules: (13, 2),
        starts: (2, 1),
        invariants: 3,
        cells: (25, 35),
    };
    assert_eq!(rt; counted(rt.alloc(), GERMAN), Some(want));
    Ok(())
}

/// The first lemma whose prefix length is another, if there is one.
fn wrong(alloc: Global, text: &[u8], rows: &[(&[u8], u32)]) -> Option<usize> {
    let protocol = match typed(alloc, b"NODE", text, 1) {
        Ok(protocol) => protocol,
        Err(_) => return Some(rows.len()),
    };
    for (i, (row, prefix)) in rows.iter().enumerate() {
        match lemma(alloc, &protocol, row) {
            Ok(formula) => {
                if formula.prefix != *prefix {
                    return Some(i);
                }
            }
            Err(_) => return Some(i),
        }
    }
    None
}

/// Lemmas of the lock, each with its prefix length.
const LEMMAS_OF_THE_LOCK: [(&[u8], u32); 3] = [
    (
        b"forall i : NODE do forall j : NODE do i != j -> (n[i] = E -> !(n[j] = C | n[j] = E)) end end",
        2,
    ),
    (
        b"forall i : NODE do (n[i] = C | n[i] = E) -> x = false end",
        1,
    ),
    (b"!isundefined(x)", 0),
];

#[test]
fn lemmas_of_the_lock(rt: HostRuntime) -> Result<(), Fail> {
    assert_eq!(rt; wrong(rt.alloc(), MUTEX, &LEMMAS_OF_THE_LOCK), None);
    Ok(())
}

/// Lemmas of German's protocol, each with its prefix length.
const LEMMAS_OF_GERMAN: [(&[u8], u32); 6] = [
    (
        b"forall i : NODE do !isundefined(Cache[i].State) & !isundefined(Chan1[i].Cmd) & !isundefined(Chan2[i].Cmd) & !isundefined(Chan3[i].Cmd) & !isundefined(InvSet[i]) & !isundefined(ShrSet[i]) & !isundefined(ExGntd) & !isundefined(CurCmd) end",
        1,
    ),
    (b"CurCmd != Empty -> !isundefined(CurPtr)", 0),
    (
        b"forall i : NODE do (Cache[i].State != I | Chan2[i].Cmd = GntS | Chan2[i].Cmd = GntE | InvSet[i] = true) -> ShrSet[i] = true end",
        1,
    ),
    (
        b"forall i : NODE do Chan2[i].Cmd = Inv -> ShrSet[i] = true & InvSet[i] = false & Chan3[i].Cmd != InvAck & (CurCmd = ReqE | CurCmd = ReqS & ExGntd = true) end",
        1,
    ),
    (
        b"forall i : NODE do Chan3[i].Cmd = InvAck -> ShrSet[i] = true & InvSet[i] = false & Cache[i].State = I & Chan2[i].Cmd = Empty & (CurCmd = ReqE | CurCmd = ReqS & ExGntd = true) end",
        1,
    ),
    (
        b"forall i : NODE do (Chan2[i].Cmd = GntE -> Cache[i].State = I) & (Cache[i].State = E -> Chan2[i].Cmd != GntS) end",
        1,
    ),
];

#[test]
fn lemmas_of_german(rt: HostRuntime) -> Result<(), Fail> {
    assert_eq!(rt; wrong(rt.alloc(), GERMAN, &LEMMAS_OF_GERMAN), None);
    Ok(())
}

/// The other lemmas.
const MORE_LEMMAS_OF_GERMAN: [(&[u8], u32); 6] = [
    (
        b"forall i : NODE do (Cache[i].State = E | Chan2[i].Cmd = GntE) -> ExGntd = true end",
        1,
    ),
    (
        b"forall i : NODE do forall j : NODE do i != j -> ((Cache[i].State = E | Chan2[i].Cmd = GntE) -> ShrSet[j] = false) end end",
        2,
    ),
    (
        b"forall i : NODE do forall j : NODE do i != j -> !(ExGntd = true & ShrSet[i] = true & ShrSet[j] = true) end end",
        2,
    ),
    (
        b"forall i : NODE do ExGntd = true & ShrSet[i] = true -> Cache[i].State = E | Chan2[i].Cmd = GntE | Chan3[i].Cmd = InvAck end",
        1,
    ),
    (
        b"forall i : NODE do (Chan2[i].Cmd = GntS | Chan2[i].Cmd = GntE) -> Chan2[i].Data = AuxData end",
        1,
    ),
    (
        b"forall i : NODE do Chan3[i].Cmd = InvAck & ExGntd = true -> Chan3[i].Data = AuxData end",
        1,
    ),
];

#[test]
fn more_lemmas_of_german(rt: HostRuntime) -> Result<(), Fail> {
    assert_eq!(rt; wrong(rt.alloc(), GERMAN, &MORE_LEMMAS_OF_GERMAN), None);
    Ok(())
}

/// The columns where a lemma of the lock uses the size of the node type, and how many kinds it writes.
fn uses(alloc: Global, row: &[u8]) -> Option<([u32; 3], usize)> {
    match typed(alloc, b"NODE", MUTEX, 1) {
        Ok(protocol) => match lemma(alloc, &protocol, row) {
            Ok(formula) => Some((columns(formula.uses.as_slice()), formula.kinds.len())),
            Err(_) => None,
        },
        Err(_) => None,
    }
}

/// The first lemma of the lock that has other uses or kinds, if there is one.
fn wrong_uses(alloc: Global, rows: &[(&[u8], ([u32; 3], usize))]) -> Option<usize> {
    for (i, (text, want)) in rows.iter().enumerate() {
        if uses(alloc, text) != Some(*want) {
            return Some(i);
        }
    }
    None
}

const USES_IN_LEMMAS: [(&[u8], ([u32; 3], usize)); 4] = [
    (b"x", ([0, 0, 0], 0)),
    (
        b"NODE_NUM = 2 & forall i : 0..NODE_NUM do i < NODE_NUM end",
        ([1, 30, 46], 0),
    ),
    (
        b"forall NODE_NUM : 0..NODE_NUM do NODE_NUM = 0 end",
        ([22, 0, 0], 0),
    ),
    (
        b"forall i : enum { A, B } do forall j : scalarset(2) do i = A end end",
        ([0, 0, 0], 2),
    ),
];

#[test]
fn uses_in_lemmas(rt: HostRuntime) -> Result<(), Fail> {
    assert_eq!(rt; wrong_uses(rt.alloc(), &USES_IN_LEMMAS), None);
    Ok(())
}

/// The lock with a name for the node type that is an enum's, or nothing's.
#[test]
fn lock_without_nodes(rt: HostRuntime) -> Result<(), Fail> {
    let names: [&[u8]; 3] = [b"LOC", b"n", b"DATA"];
    for name in names.as_slice() {
        let refused = matches!(typed(rt.alloc(), name, MUTEX, 1), Err(Want::E13));
        assert!(rt; refused);
    }
    assert_eq!(rt;
        answer(
            rt.alloc(),
            &NODES,
            b"type NODE : scalarset(2); startstate end"
        ),
        Want::Typed
    );
    Ok(())
}
