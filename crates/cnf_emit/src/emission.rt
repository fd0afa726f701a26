//! The formula of a circuit.

ghost use Rattle.std.specs.Prelude.{◌≡◌, ◌+◌, ◌<◌, ◌≤◌, Bool, true, ℕ, List, All, length, map, IfOk};
ghost use Rattle.clause_core.specs.Truth.{value_of, literal_true, all_true};
ghost use Rattle.clause_core.specs.Formula.{IsInRange};
ghost use Rattle.circuit_core.specs.Network.{IsEdge};
ghost use Rattle.circuit_core.specs.Value.{edge_value};
ghost use Rattle.cnf_emit.specs.Reach.{IsClosedFrom, IsClosedSet, HasRoots, IsWithin, own_variables, own_clauses};
ghost use Rattle.cnf_emit.specs.Encoding.{Extends, IsUnique, Encodes};

use crate::draft::Draft;
use crate::reach::reached;
use circuit_core::{Circuit, Edge};
use clause_core::{Cnf, Lit, Memory};
use std::alloc::Global;

/// A formula of a circuit, and the literals of its roots.
#[derive(Debug, Drop)]
pub struct Emitted {
    /// The formula. Its first variables are the inputs of the circuit, in order.
    pub cnf: Cnf,
    /// The literals of the roots, in order.
    pub roots: Vec<Lit>,
}

/// The formula of what the roots of a circuit stand on, and the literals of the roots.
///
/// Input k is variable k, also where no root stands on it. A number of variables that would pass 2^31
/// is answered as want of memory.
pub fn emit(alloc: Global, c: &Circuit, roots: &[Edge]) -> Result<Emitted, Memory>
    requires { All (IsEdge c.now) roots.now }
    ensures inputs { IfOk result (λ m. c.now.inputs ≤ m.cnf.variables) }
    ensures count { IfOk result (λ m. length m.roots.items ≡ length roots.now) }
    ensures range { IfOk result (λ m. IsInRange m.cnf.variables m.roots.items) }

    // Each assignment of the inputs extends to exactly one that satisfies the formula.
    ensures extends { IfOk result (λ m. (x : ℕ → Bool)
        → Extends m.cnf.variables m.cnf.clauses c.now.inputs x) }
    ensures unique { IfOk result (λ m. IsUnique m.cnf.variables m.cnf.clauses c.now.inputs) }

    // There the literals of the roots have the roots' values.
    ensures roots { IfOk result (λ m. (a : List Bool) → all_true a m.cnf.clauses ≡ true
        → map (literal_true a) m.roots.items ≡ map (edge_value c.now (value_of a)) roots.now) }

    // Only what the roots stand on is emitted: no more variables and no more clauses than any set of
    // nodes needs that has the roots and, with each gate, what it stands on.
    ensures only { IfOk result (λ m. (p : ℕ → Bool) → IsClosedSet c.now.gates p → HasRoots p roots.now
        → m.cnf.variables ≤ c.now.inputs + own_variables p c.now.gates) }
    ensures only_clauses { IfOk result (λ m. (p : ℕ → Bool) → IsClosedSet c.now.gates p
        → HasRoots p roots.now → length m.cnf.clauses ≤ own_clauses p c.now.gates) }
{
    let marks = reached(alloc, c, roots)?;
    let draft = drafted(alloc, c, &marks)?;
    let lits = draft.literals(alloc, roots)?;
    let cnf = draft.formula(alloc)?;
    Ok(Emitted { cnf, roots: lits })
}

/// What is emitted of the marked nodes of a circuit.
fn drafted(alloc: Global, c: &Circuit, marks: &[bool]) -> Result<Draft, Memory>
    requires places { length marks.now ≡ length c.now.gates + 1 }
    requires closed { IsClosedFrom 0 c.now.gates marks.now }
    ensures nodes { IfOk result (λ d. length d.lits ≡ length c.now.gates + 1) }
    ensures encodes { IfOk result (λ d. Encodes c.now marks.now d) }
    ensures few { IfOk result (λ d. (p : ℕ → Bool) → IsWithin marks.now p
        → d.variables ≤ c.now.inputs + own_variables p c.now.gates) }
    ensures short { IfOk result (λ d. (p : ℕ → Bool) → IsWithin marks.now p
        → length d.clauses ≤ own_clauses p c.now.gates) }
{
    let inputs = c.inputs();
    let mut draft = Draft::make(alloc, inputs);
    draft.constant(alloc, marks[0])?;
    for (i, gate) in c.gates().iter().enumerate() {
        draft.gate(alloc, marks[i + 1], *gate, inputs)?;
    }
    Ok(draft)
}
