//! Which nodes of a circuit its roots stand on.

ghost use Rattle.std.specs.Prelude.{◌≡◌, ◌+◌, ◌<◌, ◌≤◌, Bool, true, ℕ, All, length, IfOk};
ghost use Rattle.circuit_core.specs.Network.{IsEdge, IsNetwork};
ghost use Rattle.circuit_core.specs.Edges.{node_of};
ghost use Rattle.cnf_emit.specs.Reach.{is_marked, IsMarked, HasMarks, IsClosedFrom, StandsOnUpTo, Marks, HasNodes, HasRoots, IsClosedSet, IsWithin};

use circuit_core::{Circuit, Edge, Gate};
use clause_core::Memory;
use std::alloc::Global;

/// One mark for each node: whether some root stands on it.
pub fn reached(alloc: Global, c: &Circuit, roots: &[Edge]) -> Result<Vec<bool>, Memory>
    requires { All (IsEdge c.now) roots.now }
    ensures places { IfOk result (λ m. length m.items ≡ length c.now.gates + 1) }
    ensures roots { IfOk result (λ m. All (IsMarked m.items) roots.now) }
    ensures closed { IfOk result (λ m. IsClosedFrom 0 c.now.gates m.items) }
    // They are the least such marks.
    ensures least { IfOk result (λ m. (p : ℕ → Bool) → IsClosedSet c.now.gates p → HasRoots p roots.now
        → IsWithin m.items p) }
{
    let nodes = c.gates().len() + 1;
    let mut marks = vec![in alloc; false; nodes]?;
    mark_roots(marks.as_mut_slice(), roots);
    mark_below(marks.as_mut_slice(), c);
    Ok(marks)
}

/// Marks the nodes of edges.
fn mark_roots(marks: &mut [bool], roots: &[Edge])
    requires { All (λ e. node_of e < length marks.old) roots.now }
    ensures marked { All (IsMarked marks.new) roots.now }
    ensures within { (p : ℕ → Bool) → HasRoots p roots.now → IsWithin marks.old p → IsWithin marks.new p }
{
    for root in roots {
        marks[root.node() as usize] = true;
    }
}

/// Marks what marked nodes stand on, from the last gate down.
fn mark_below(marks: &mut [bool], c: &Circuit)
    requires { length marks.old ≡ length c.now.gates + 1 }
    ensures kept { (n : ℕ) → is_marked marks.old n ≡ true → is_marked marks.new n ≡ true }
    ensures closed { IsClosedFrom 0 c.now.gates marks.new }
    ensures within { (p : ℕ → Bool) → IsClosedSet c.now.gates p → IsWithin marks.old p → IsWithin marks.new p }
{
    let gates = c.gates();
    for i in (0..gates.len()).rev() {
        mark_gate(marks, i, gates[i]);
    }
}

/// Marks the nodes that a gate stands on, where it is marked. The gate at a place is the node after it.
fn mark_gate(marks: &mut [bool], place: usize, gate: Gate)
    requires inside { place + 1 < length marks.old }
    requires below { StandsOnUpTo place gate }
    ensures marks { Marks marks.old marks.new place }
    ensures has { is_marked marks.old (place + 1) ≡ true → HasMarks marks.new gate }
    ensures within { (p : ℕ → Bool) → (p (place + 1) ≡ true → HasNodes p gate) → IsWithin marks.old p
        → IsWithin marks.new p }
{
    if !marks[place + 1] {
        return;
    }
    match gate {
        Gate::Input(_) => {}
        Gate::And(a, b) => {
            marks[a.node() as usize] = true;
            marks[b.node() as usize] = true;
        }
    }
}
