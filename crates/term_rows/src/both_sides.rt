//! Each piece of the table of opened formulas says what its formula says, in every state of a small machine with 1,
//! 2 and 3 nodes.

use crate::opening::{ROWS, Row, opened};
use crate::values::{M, Make, P, UNDEFINED, family, put, term};
use sqlite_items::{Boxed, Items};
use std::alloc::Global;
use std::process::Abort;
use std::test::Fail;
use term_core::frame::Frame;
use term_core::machine::TermMachine;
use term_core::state::NodeState;
use term_core::term::Term;
use term_core::text::Memory;
use term_core::value::{Sort, Value};

/// The states of a machine with so many nodes: of each number below `pointers` the digits to base 4 are the
/// pointers, and of each below `truths` those to base 2 are the truth values at the pairs.
#[derive(Clone, Copy)]
struct Space {
    nodes: u32,
    pointers: u32,
    pairs: &'static [(u32, u32)],
    truths: u32,
}

/// What a piece reads that reads no pointers.
const ALL_PAIRS: [Space; 3] = [
    Space {
        nodes: 1,
        pointers: 1,
        pairs: &[(1, 1)],
        truths: 2,
    },
    Space {
        nodes: 2,
        pointers: 1,
        pairs: &[(1, 1), (1, 2), (2, 1), (2, 2)],
        truths: 16,
    },
    Space {
        nodes: 3,
        pointers: 1,
        pairs: &[
            (1, 1),
            (1, 2),
            (1, 3),
            (2, 1),
            (2, 2),
            (2, 3),
            (3, 1),
            (3, 2),
            (3, 3),
        ],
        truths: 512,
    },
];

/// What a piece reads that reads pointers: of the pairs it reads those of a node with itself alone.
const WITH_POINTERS: [Space; 3] = [
    Space {
        nodes: 1,
        pointers: 4,
        pairs: &[(1, 1)],
        truths: 2,
    },
    Space {
        nodes: 2,
        pointers: 16,
        pairs: &[(1, 1), (2, 2)],
        truths: 4,
    },
    Space {
        nodes: 3,
        pointers: 64,
        pairs: &[(1, 1), (2, 2), (3, 3)],
        truths: 8,
    },
];

fn only() -> Sort {
    Sort::Range { low: 0, high: 0 }
}

/// The families that the table reads, by their numbers: pointers, which may be undefined, and truth values at pairs
/// of nodes, which may not. The other two have one value.
fn machine(alloc: Global) -> Result<TermMachine, Memory> {
    let mut families = Items::new(alloc);
    families.push(family(alloc, b"p[]", Sort::Node, 1, true)?)?;
    families.push(family(alloc, b"x", only(), 0, false)?)?;
    families.push(family(alloc, b"h", only(), 0, false)?)?;
    families.push(family(alloc, b"m[][]", Sort::Truth, 2, false)?)?;
    Ok(TermMachine {
        kinds: Items::new(alloc),
        families,
        starts: Items::new(alloc),
        rules: Items::new(alloc),
    })
}

/// The pointer of a digit.
fn pointer(digit: u32) -> Value {
    if digit == 0 {
        UNDEFINED
    } else {
        Value::Node(digit)
    }
}

/// Gives the pointers the digits of a number to base 4, 0 being undefined; a digit for which there is no node, and
/// it alone, leaves a pointer as it is. Whether it did.
fn put_pointers(state: &mut NodeState, nodes: u32, number: u32) -> bool {
    let mut left = number;
    for k in 0..nodes {
        let digit = left % 4;
        if put(state, P, &[k + 1], pointer(digit)) != (digit <= nodes) {
            return false;
        }
        left /= 4;
    }
    true
}

/// Gives the truth values at pairs the digits of a number to base 2. Whether it did.
fn put_truths(state: &mut NodeState, pairs: &[(u32, u32)], number: u32) -> bool {
    let mut left = number;
    for (i, j) in pairs {
        if !put(state, M, &[*i, *j], Value::Truth(left % 2 == 1)) {
            return false;
        }
        left /= 2;
    }
    true
}

/// A term said of all nodes for its first variables.
fn closed(alloc: Global, count: u32, body: Term) -> Result<Term, Memory> {
    if count == 0 {
        return Ok(body);
    }
    let inner = closed(alloc, count - 1, body)?;
    let body = Boxed::new(alloc, inner)?;
    Ok(Term::Quantified { all: true, body })
}

/// A piece said of all nodes for its binders, and its formula of all nodes for its prefix.
#[derive(Clone, Copy)]
struct Sides<'a> {
    piece: &'a Term,
    formula: &'a Term,
}

/// Whether a term without variables of its own is true.
fn is_true(alloc: Global, state: &NodeState, t: &Term) -> Result<bool, Memory> {
    let mut frame = Frame::make(alloc, 8)?;
    if !t.nests_within(frame.spare()) {
        return Err(Memory);
    }
    Ok(t.value(state, &mut frame).is_true())
}

/// Whether both sides say the same in a state.
fn agree(alloc: Global, state: &NodeState, sides: Sides) -> Result<bool, Memory> {
    let written = is_true(alloc, state, sides.piece)?;
    let opened = is_true(alloc, state, sides.formula)?;
    Ok(written == opened)
}

/// In how many states that differ in the truth values both sides say the same; 0 where one is no state.
fn agreements(
    alloc: Global,
    state: &mut NodeState,
    space: Space,
    sides: Sides,
) -> Result<u32, Memory> {
    let mut count = 0u32;
    for number in 0..space.truths {
        if !put_truths(state, space.pairs, number) {
            return Ok(0);
        }
        if agree(alloc, state, sides)? {
            count = count.saturating_add(1);
        }
    }
    Ok(count)
}

/// Compares both sides in every state.
fn compare(
    rt: &impl Abort,
    alloc: Global,
    machine: &TermMachine,
    space: Space,
    sides: Sides,
) -> Result<(), Memory> {
    let mut state = NodeState::make(alloc, machine, space.nodes)?;
    for number in 0..space.pointers {
        assert!(rt; put_pointers(&mut state, space.nodes, number));
        assert_eq!(rt; agreements(alloc, &mut state, space, sides)?, space.truths);
    }
    Ok(())
}

/// Whether a piece reads pointers.
fn reads_pointers(steps: &[Make]) -> bool {
    for step in steps {
        if let Make::Read(P, _) = step {
            return true;
        }
    }
    false
}

/// Compares a piece with its formula in every state of what it reads.
fn compare_all(
    rt: &impl Abort,
    alloc: Global,
    machine: &TermMachine,
    steps: &[Make],
    sides: Sides,
) -> Result<(), Memory> {
    let spaces = if reads_pointers(steps) {
        WITH_POINTERS
    } else {
        ALL_PAIRS
    };
    for space in spaces {
        compare(rt, alloc, machine, space, sides)?;
    }
    Ok(())
}

/// Compares the only formula of a row with its piece.
fn check(rt: &impl Abort, alloc: Global, machine: &TermMachine, row: Row) -> Result<(), Memory> {
    let piece = term(alloc, row.steps)?;
    let piece = closed(alloc, row.binders, piece)?;
    let formulas = opened(alloc, row)?;
    assert_eq!(rt; formulas.len(), 1);
    for f in formulas.as_slice() {
        let body = f.body.copy(alloc)?;
        let formula = closed(alloc, f.prefix, body)?;
        let sides = Sides {
            piece: &piece,
            formula: &formula,
        };
        compare_all(rt, alloc, machine, row.steps, sides)?;
    }
    Ok(())
}

#[test]
fn both_sides_say_the_same(rt: HostRuntime) -> Result<(), Fail> {
    let machine = machine(rt.alloc())?;
    for row in ROWS {
        check(&rt, rt.alloc(), &machine, row)?;
    }
    Ok(())
}
