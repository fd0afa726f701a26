//! Circuits: inputs, constants and conjunctions.

ghost use Rattle.std.specs.Prelude.{◌≡◌, ◌&&◌, ◌||◌, ◌≤◌, ◌<◌, ◌+◌, ℕ, Bool, false, [], length, take, IfOk, IfSome, OnOk, OnErr};
ghost use Rattle.std.specs.List.{slice_index_or};

use crate::edge::{Edge, Gate, not};
use crate::folding::folded;
use crate::memory::Memory;
use std::alloc::Global;
use std::collections::HashMap;
use std::marker::Model;

/// The most gates of a circuit: with one more, an edge would have no code of 32 bits.
const MOST_GATES: usize = (1 << 31) - 1;

/// An and-inverter graph over inputs. Contracts see a `Network`: the number of inputs, and the gates
/// in order. Constants fold and equal conjunctions share a gate, which no contract speaks of.
#[derive(Debug, Drop)]
pub struct Circuit {
    inputs: u32,
    gates: Vec<Gate>,
    /// Where a gate may stand. A place is looked at again before it is used.
    places: HashMap<Gate, u32>,
}

impl Model for Circuit {
    ghost use Rattle.circuit_core.specs.Network.{Network, IsNetwork};

    ghost Value = { Network };

    ghost view = { λ c. record { inputs = c.inputs; gates = c.gates.items } };

    ghost invariant = { λ c. IsNetwork c.inputs c.gates.items };
}

/// How far a circuit had grown.
#[derive(Clone, Copy, Debug)]
pub struct Mark {
    gates: usize,
    inputs: u32,
}

impl Circuit {
    ghost use Rattle.circuit_core.specs.declared.edge.Gate.{Gate as GateOf};
    ghost use Rattle.circuit_core.specs.declared.edge.Edge.{Edge as EdgeOf};
    ghost use Rattle.circuit_core.specs.Network.{Network, IsEdge, IsNetwork};
    ghost use Rattle.circuit_core.specs.Value.{node_value, edge_value, gate_value, SameBelow};
    ghost use Rattle.circuit_core.specs.Growth.{KeepsEdges, Grows};

    /// The circuit that has no inputs and no gates.
    pub fn make(alloc: Global) -> Result<Circuit, Memory>
        ensures inputs { IfOk result (λ c. c.inputs ≡ 0) }
        ensures gates { IfOk result (λ c. c.gates ≡ []) }
    {
        Ok(Circuit {
            inputs: 0,
            gates: Vec::new(alloc),
            places: HashMap::new(alloc),
        })
    }

    /// The constant, which is an edge of every circuit. It takes no memory.
    pub fn truth(value: bool) -> Edge
        ensures edge { (c : Network) → IsEdge c result }
        ensures value { (c : Network) (x : ℕ → Bool) → edge_value c x result ≡ value }
    {
        if value {
            Edge { code: 1 }
        } else {
            Edge { code: 0 }
        }
    }

    /// How many inputs the circuit has. Only their values bear on those of its edges.
    pub fn inputs(&self) -> u32
        ensures count { result ≡ self.now.inputs }
        ensures depends { (x y : ℕ → Bool) → SameBelow self.now.inputs x y
            → (e : EdgeOf) → edge_value self.now x e ≡ edge_value self.now y e }
    {
        self.inputs
    }

    /// The gates, in order. The gate at place n gives node n + 1 its value, from earlier nodes, and
    /// node 0 is false.
    pub fn gates(&self) -> &[Gate]
        ensures items { result.now ≡ self.now.gates }
        ensures network { IsNetwork self.now.inputs self.now.gates }
        ensures constant { (x : ℕ → Bool) → node_value self.now x 0 ≡ false }
        ensures values { (x : ℕ → Bool) (n : ℕ) (d : GateOf) → n < length self.now.gates
            → node_value self.now x (n + 1) ≡ gate_value self.now x (slice_index_or self.now.gates n d) }
    {
        self.gates.as_slice()
    }

    /// Adds an input, whose number is how many there were.
    pub fn input(&mut self) -> Result<Edge, Memory>
        ensures edge { IfOk result (λ e. IsEdge self.new e) }
        ensures value { IfOk result (λ e. (x : ℕ → Bool) → edge_value self.new x e ≡ x self.old.inputs) }
        ensures inputs { OnOk result (self.new.inputs ≡ self.old.inputs + 1) }
        ensures keeps { KeepsEdges self.old self.new }
        ensures grows { Grows self.old self.new }
        ensures err { OnErr result (self.new ≡ self.old) }
        // The new input bears on no old edge.
        ensures apart { (x y : ℕ → Bool) → SameBelow self.old.inputs x y
            → (e : EdgeOf) → edge_value self.old x e ≡ edge_value self.old y e }
    {
        let place = self.gates.len();
        if place >= MOST_GATES {
            return Err(Memory);
        }
        self.gates.push(Gate::Input(self.inputs))?;
        self.inputs += 1;
        Ok(Edge {
            code: 2 * (place as u32 + 1),
        })
    }

    /// The conjunction of two edges.
    pub fn and(&mut self, a: Edge, b: Edge) -> Result<Edge, Memory>
        requires a_edge { IsEdge self.old a }
        requires b_edge { IsEdge self.old b }
        ensures edge { IfOk result (λ e. IsEdge self.new e) }
        ensures value { IfOk result (λ e. (x : ℕ → Bool)
            → edge_value self.new x e ≡ (edge_value self.old x a && edge_value self.old x b)) }
        ensures inputs { self.new.inputs ≡ self.old.inputs }
        ensures keeps { KeepsEdges self.old self.new }
        ensures grows { Grows self.old self.new }
        ensures err { OnErr result (self.new ≡ self.old) }
    {
        match folded(a, b) {
            Some(e) => Ok(e),
            None => self.conjunction(a, b),
        }
    }

    /// The disjunction of two edges.
    pub fn or(&mut self, a: Edge, b: Edge) -> Result<Edge, Memory>
        requires a_edge { IsEdge self.old a }
        requires b_edge { IsEdge self.old b }
        ensures edge { IfOk result (λ e. IsEdge self.new e) }
        ensures value { IfOk result (λ e. (x : ℕ → Bool)
            → edge_value self.new x e ≡ (edge_value self.old x a || edge_value self.old x b)) }
        ensures inputs { self.new.inputs ≡ self.old.inputs }
        ensures keeps { KeepsEdges self.old self.new }
        ensures grows { Grows self.old self.new }
        ensures err { OnErr result (self.new ≡ self.old) }
    {
        match self.and(not(a), not(b)) {
            Ok(neither) => Ok(not(neither)),
            Err(Memory) => Err(Memory),
        }
    }

    /// A gate for the conjunction of two edges: one that is there, or a new one.
    fn conjunction(&mut self, a: Edge, b: Edge) -> Result<Edge, Memory>
        requires a_edge { IsEdge self.old a }
        requires b_edge { IsEdge self.old b }
        ensures edge { IfOk result (λ e. IsEdge self.new e) }
        ensures value { IfOk result (λ e. (x : ℕ → Bool)
            → edge_value self.new x e ≡ (edge_value self.old x a && edge_value self.old x b)) }
        ensures inputs { self.new.inputs ≡ self.old.inputs }
        ensures keeps { KeepsEdges self.old self.new }
        ensures grows { Grows self.old self.new }
        ensures err { OnErr result (self.new ≡ self.old) }
    {
        if let Some(e) = self.found(a, b) {
            return Ok(e);
        }
        self.add(a, b)
    }

    /// The gate of this conjunction, where it is known to be there.
    fn found(&self, a: Edge, b: Edge) -> Option<Edge>
        ensures edge { IfSome result (λ e. IsEdge self.now e) }
        ensures value { IfSome result (λ e. (x : ℕ → Bool)
            → edge_value self.now x e ≡ (edge_value self.now x a && edge_value self.now x b)) }
    {
        let gate = Gate::And(a, b);
        let place = match self.places.get(&gate) {
            Some(place) => *place,
            None => return None,
        };
        if (place as usize) < self.gates.len() && self.gates[place as usize] == gate {
            Some(Edge {
                code: 2 * (place + 1),
            })
        } else {
            None
        }
    }

    /// A new gate for the conjunction of two edges.
    fn add(&mut self, a: Edge, b: Edge) -> Result<Edge, Memory>
        requires a_edge { IsEdge self.old a }
        requires b_edge { IsEdge self.old b }
        ensures edge { IfOk result (λ e. IsEdge self.new e) }
        ensures value { IfOk result (λ e. (x : ℕ → Bool)
            → edge_value self.new x e ≡ (edge_value self.old x a && edge_value self.old x b)) }
        ensures inputs { self.new.inputs ≡ self.old.inputs }
        ensures keeps { KeepsEdges self.old self.new }
        ensures grows { Grows self.old self.new }
        ensures err { OnErr result (self.new ≡ self.old) }
    {
        let gate = Gate::And(a, b);
        let place = self.gates.len();
        if place >= MOST_GATES {
            return Err(Memory);
        }
        self.places.insert(gate, place as u32)?;
        self.gates.push(gate)?;
        Ok(Edge {
            code: 2 * (place as u32 + 1),
        })
    }

    /// How far the circuit has grown.
    pub(crate) fn mark(&self) -> Mark
        ensures gates { result.gates ≡ length self.now.gates }
        ensures inputs { result.inputs ≡ self.now.inputs }
        ensures network { IsNetwork self.now.inputs self.now.gates }
    {
        Mark {
            gates: self.gates.len(),
            inputs: self.inputs,
        }
    }

    /// Takes back what was added after a mark.
    pub(crate) fn take_back(&mut self, to: Mark)
        requires { IsNetwork to.inputs (take to.gates self.old.gates) }
        ensures inputs { self.new.inputs ≡ to.inputs }
        ensures gates { self.new.gates ≡ take to.gates self.old.gates }
    {
        self.gates.truncate(to.gates);
        self.inputs = to.inputs;
    }
}
