//! Rows worked out by hand: the values of circuits, and which gates are saved.

use circuit_core::{Circuit, Edge, Gate, not};
use std::alloc::Global;
use std::test::Fail;

/// The value of an edge, by those of the nodes.
fn edge_value(values: &[bool], e: Edge) -> bool {
    let at = e.node() as usize;
    let value = if at < values.len() { values[at] } else { false };
    if e.is_negated() { !value } else { value }
}

/// The value of a gate, by those of the inputs and of the earlier nodes.
fn gate_value(inputs: &[bool], values: &[bool], gate: Gate) -> bool {
    match gate {
        Gate::Input(k) => {
            let at = k as usize;
            if at < inputs.len() { inputs[at] } else { false }
        }
        Gate::And(a, b) => edge_value(values, a) & edge_value(values, b),
    }
}

/// The value of an edge of the circuit under these values of its inputs, gate by gate.
fn value(alloc: Global, c: &Circuit, inputs: &[bool], e: Edge) -> Result<bool, Fail> {
    let mut values = vec![in alloc; false]?;
    for gate in c.gates() {
        let next = gate_value(inputs, &values, *gate);
        values.push(next)?;
    }
    Ok(edge_value(&values, e))
}

/// The conjunction of the edges of these codes, where the circuit has two inputs: how many gates
/// stand then, and the values under all values of the inputs, the first input the slower.
fn conjunction(alloc: Global, a: u32, b: u32) -> Result<(usize, Vec<bool>), Fail> {
    let mut c = Circuit::make(alloc)?;
    c.input()?;
    c.input()?;
    let (a, b) = (Edge { code: a }, Edge { code: b });
    if a.node() > 2 || b.node() > 2 {
        return Ok((0, Vec::new(alloc)));
    }
    let e = c.and(a, b)?;
    let mut values = Vec::new(alloc);
    for (x, y) in [(false, false), (false, true), (true, false), (true, true)] {
        values.push(value(alloc, &c, &[x, y], e)? && !value(alloc, &c, &[x, y], not(e))?)?;
    }
    Ok((c.gates().len(), values))
}

/// Conjunctions of the inputs a (code 2) and b (code 4), their negations and constants: the values,
/// and the gates that stand.
#[test]
fn conjunctions(rt: HostRuntime) -> Result<(), Fail> {
    let rows: [(u32, u32, [bool; 4], usize); 13] = [
        (2, 4, [false, false, false, true], 3),
        (4, 2, [false, false, false, true], 3),
        (3, 4, [false, true, false, false], 3),
        (3, 5, [true, false, false, false], 3),
        (2, 2, [false, false, true, true], 2),
        (2, 3, [false, false, false, false], 2),
        (5, 4, [false, false, false, false], 2),
        (0, 4, [false, false, false, false], 2),
        (2, 0, [false, false, false, false], 2),
        (1, 4, [false, true, false, true], 2),
        (3, 1, [true, true, false, false], 2),
        (1, 1, [true, true, true, true], 2),
        (0, 0, [false, false, false, false], 2),
    ];
    for (a, b, want, gates) in rows {
        let (had, values) = conjunction(rt.alloc(), a, b)?;
        assert_eq!(rt; values.as_slice(), want.as_slice());
        assert_eq!(rt; had, gates);
    }
    assert_eq!(rt; Circuit::truth(true).code, 1);
    assert_eq!(rt; Circuit::truth(false).code, 0);
    Ok(())
}

/// A circuit over three inputs.
#[derive(Drop)]
struct Chosen {
    circuit: Circuit,
    /// The second input where the first is true, else the third.
    by_first: Edge,
    /// The same once more, and whether a gate was added for it.
    again: Edge,
    added: bool,
    /// Any one of the three.
    any: Edge,
}

fn choices_of(alloc: Global) -> Result<Chosen, Fail> {
    let mut circuit = Circuit::make(alloc)?;
    let a = circuit.input()?;
    let b = circuit.input()?;
    let d = circuit.input()?;
    let by_first = circuit.ite(a, b, d)?;
    let gates = circuit.gates().len();
    let again = circuit.ite(a, b, d)?;
    let added = circuit.gates().len() != gates;
    let any = circuit.choose(&[a, b, d])?;
    Ok(Chosen {
        circuit,
        by_first,
        again,
        added,
        any,
    })
}

/// Which values the choice of any one input takes, as the two inputs that choose go through theirs:
/// whether false, and whether true.
fn taken(alloc: Global, c: &Chosen, a: bool, b: bool, d: bool) -> Result<(bool, bool), Fail> {
    let mut seen = (false, false);
    for (p, q) in [(false, false), (false, true), (true, false), (true, true)] {
        if value(alloc, &c.circuit, &[a, b, d, p, q], c.any)? {
            seen.1 = true;
        } else {
            seen.0 = true;
        }
    }
    Ok(seen)
}

/// Over three inputs: a choice by the first between the others against its table, and a choice of the
/// three by fresh inputs, which gives both values but where all three are the same. A gate that is
/// there is used again.
#[test]
fn choices(rt: HostRuntime) -> Result<(), Fail> {
    let rows: [(bool, bool, bool, bool, (bool, bool)); 8] = [
        (false, false, false, false, (true, false)),
        (false, false, true, true, (true, true)),
        (false, true, false, false, (true, true)),
        (false, true, true, true, (true, true)),
        (true, false, false, false, (true, true)),
        (true, false, true, false, (true, true)),
        (true, true, false, true, (true, true)),
        (true, true, true, true, (false, true)),
    ];
    let c = choices_of(rt.alloc())?;
    assert_eq!(rt; c.again, c.by_first);
    assert_eq!(rt; c.added, false);
    assert_eq!(rt; c.circuit.inputs(), 5);
    for (a, b, d, want, can_be) in rows {
        assert_eq!(rt;
            value(rt.alloc(), &c.circuit, &[a, b, d], c.by_first)?,
            want
        );
        assert_eq!(rt; taken(rt.alloc(), &c, a, b, d)?, can_be);
    }
    Ok(())
}
