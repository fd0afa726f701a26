//! Rows worked out by hand: which assignments satisfy the formulas of small circuits, and the values
//! of the roots there.

use circuit_core::{Circuit, Edge, not};
use clause_core::{Assignment, Cnf, Lit, satisfies};
use cnf_emit::{BitSystem, Emitted, emit};
use std::alloc::Global;
use std::test::Fail;

/// The bits of a number, the lowest first, as the values of this many variables.
fn assignment(alloc: Global, number: u32, variables: u32) -> Result<Assignment, Fail> {
    let mut values = Vec::new(alloc);
    let mut rest = number;
    for _ in 0..variables {
        values.push(rest % 2 == 1)?;
        rest /= 2;
    }
    Ok(Assignment::make(alloc, values))
}

/// Notes that an assignment satisfies: the value of a literal, or `?` where one was noted before.
fn note(seen: &mut [u8], at: usize, value: bool) {
    if at < seen.len() {
        seen[at] = match seen[at] {
            b'.' if value => b'1',
            b'.' => b'0',
            _ => b'?',
        };
    }
}

/// For each assignment of the inputs, in the order of its number: the value of the literal, `0` or
/// `1`, where exactly one assignment of all variables extends it, `.` where none does, and `?` where
/// more do.
fn table(alloc: Global, cnf: &Cnf, inputs: u32, l: Lit) -> Result<Vec<u8>, Fail> {
    let variables = cnf.variables();
    if inputs > 8 || variables > 16 {
        return Ok(Vec::new(alloc));
    }
    let count = 1usize << inputs;
    let mut seen = vec![in alloc; b'.'; count]?;
    for number in 0..(1u32 << variables) {
        let a = assignment(alloc, number, variables)?;
        if satisfies(cnf, &a) {
            note(seen.as_mut_slice(), number as usize % count, a.is_true(l));
        }
    }
    Ok(seen)
}

/// What is emitted of these edges of a circuit: the formula, and the literals of the first edge and
/// the last one.
fn emitted(alloc: Global, c: &Circuit, edges: &[Edge]) -> Result<(Cnf, Lit, Lit), Fail> {
    let nodes = c.gates().len();
    let known = edges.iter().all(|e| e.node() as usize <= nodes);
    if !known {
        Err("edges of the circuit")?;
    }
    let Emitted { cnf, roots } = emit(alloc, c, edges)?;
    let first = roots.first().copied().ok_or("a root")?;
    let last = roots.last().copied().ok_or("a root")?;
    if roots.len() != edges.len() {
        Err("a literal for each root")?;
    }
    Ok((cnf, first, last))
}

/// What a circuit over the inputs a and b has: the conjunction of both, and one that no root stands on.
fn two(alloc: Global) -> Result<(Circuit, Edge, Edge), Fail> {
    let mut c = Circuit::make(alloc)?;
    let a = c.input()?;
    let b = c.input()?;
    let both = c.and(a, b)?;
    c.and(a, not(b))?;
    Ok((c, a, both))
}

/// Roots of a circuit over two inputs: how many variables the formula has, how many clauses, and the
/// tables of the first root and the last one.
#[test]
fn roots(rt: HostRuntime) -> Result<(), Fail> {
    let (c, a, both) = two(rt.alloc())?;
    let (t, f) = (Circuit::truth(true), Circuit::truth(false));
    let rows: [(&[Edge], u32, usize, &[u8], &[u8]); 8] = [
        (&[both], 3, 3, b"0001", b"0001"),
        (&[not(both)], 3, 3, b"1110", b"1110"),
        (&[both, both], 3, 3, b"0001", b"0001"),
        (&[both, not(both)], 3, 3, b"0001", b"1110"),
        (&[a], 2, 0, b"0101", b"0101"),
        (&[t], 3, 1, b"1111", b"1111"),
        (&[f, t], 3, 1, b"0000", b"1111"),
        (&[f, both], 4, 4, b"0000", b"0001"),
    ];
    for (edges, variables, clauses, first, last) in rows {
        let (cnf, l, k) = emitted(rt.alloc(), &c, edges)?;
        assert_eq!(rt; cnf.variables(), variables);
        assert_eq!(rt; cnf.clauses().len(), clauses);
        assert_eq!(rt; table(rt.alloc(), &cnf, 2, l)?.as_slice(), first);
        assert_eq!(rt; table(rt.alloc(), &cnf, 2, k)?.as_slice(), last);
    }
    Ok(())
}

/// Over the inputs a, b and d: b where a is true, else d; and the choice of any one by two more inputs.
fn three(alloc: Global) -> Result<(Circuit, Edge, Edge), Fail> {
    let mut c = Circuit::make(alloc)?;
    let a = c.input()?;
    let b = c.input()?;
    let d = c.input()?;
    let by_first = c.ite(a, b, d)?;
    let any = c.choose(&[a, b, d])?;
    Ok((c, by_first, any))
}

/// Whether the choice of any one of three inputs is 0 where all three are, 1 where all three are, and
/// either by the choosing inputs elsewhere.
fn is_any(values: &[u8]) -> bool {
    for n in 0..8usize {
        let mut zero = false;
        let mut one = false;
        for k in 0..4usize {
            match values.get(n + 8 * k) {
                Some(b'0') => zero = true,
                Some(b'1') => one = true,
                _ => return false,
            }
        }
        if zero != (n != 7) || one != (n != 0) {
            return false;
        }
    }
    true
}

/// A choice by a condition and a choice by fresh inputs, from five inputs of which the first does not
/// see the last two.
#[test]
fn choices(rt: HostRuntime) -> Result<(), Fail> {
    let (c, by_first, any) = three(rt.alloc())?;
    let (cnf, l, _) = emitted(rt.alloc(), &c, &[by_first])?;
    assert_eq!(rt; cnf.variables(), 8);
    assert_eq!(rt;
        table(rt.alloc(), &cnf, 5, l)?.as_slice(),
        b"00011011000110110001101100011011".as_slice()
    );
    let (cnf, l, k) = emitted(rt.alloc(), &c, &[any, not(any)])?;
    assert_eq!(rt; cnf.variables(), 11);
    assert!(rt; is_any(&table(rt.alloc(), &cnf, 5, l)?));
    assert_eq!(rt; k, l.negated());
    Ok(())
}

/// A system of one bit: variable 0 before and variable 2 after a step, which is bad where it is true.
#[test]
fn system(rt: HostRuntime) -> Result<(), Fail> {
    let current = vec![in rt.alloc(); Lit { code: 0 }]?;
    let next = vec![in rt.alloc(); Lit { code: 4 }]?;
    let start = Cnf::make(rt.alloc(), 1);
    let step = Cnf::make(rt.alloc(), 3);
    let s = BitSystem::make(start, step, current, next, Lit { code: 0 }, Lit { code: 4 });
    assert_eq!(rt; s.start().variables(), 1);
    assert_eq!(rt; s.step().variables(), 3);
    assert_eq!(rt; s.current(), [Lit { code: 0 }].as_slice());
    assert_eq!(rt; s.next(), [Lit { code: 4 }].as_slice());
    assert_eq!(rt; s.bad().code, 0);
    assert_eq!(rt; s.bad_next().code, 4);
    Ok(())
}
