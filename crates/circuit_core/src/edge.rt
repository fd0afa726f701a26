//! Edges and gates: the parts that a circuit is made of.

ghost use Rattle.std.specs.Prelude.{◌≡◌, ℕ, Bool, not as opposite};

/// An edge of a circuit: the output of one of its nodes, or its negation.
///
/// Node 0 is the constant false, and node n above it is the gate at place n - 1. A code names an
/// edge of one circuit alone; the edges of node 0 are edges of every circuit.
#[derive(Clone, Copy, Debug, PartialEq, Eq, Hash)]
pub struct Edge {
    /// Twice the node, plus one where the edge is negated.
    pub code: u32,
}

/// What gives a node its value.
#[derive(Clone, Copy, Debug, PartialEq, Eq, Hash)]
pub enum Gate {
    /// The input of this number, from 0 in the order of making.
    Input(u32),
    /// The conjunction of two edges, both of earlier nodes.
    And(Edge, Edge),
}

impl Edge {
    ghost use Rattle.circuit_core.specs.Edges.{node_of, is_negated};

    /// The node that the edge comes from.
    pub fn node(self) -> u32
        ensures { result ≡ node_of self }
    {
        self.code / 2
    }

    /// Whether the edge is the negation of its node.
    pub fn is_negated(self) -> bool
        ensures { result ≡ is_negated self }
    {
        self.code % 2 == 1
    }
}

ghost use Rattle.circuit_core.specs.Edges.{node_of};
ghost use Rattle.circuit_core.specs.Network.{Network};
ghost use Rattle.circuit_core.specs.Value.{edge_value};

/// The negation of an edge, which is an edge of the same circuits. It takes no memory.
pub fn not(e: Edge) -> Edge
    ensures node { node_of result ≡ node_of e }
    ensures value { (c : Network) (x : ℕ → Bool) → edge_value c x result ≡ opposite (edge_value c x e) }
{
    if e.code % 2 == 1 {
        Edge { code: e.code - 1 }
    } else {
        Edge { code: e.code + 1 }
    }
}
