//! Conjunctions that need no gate.

ghost use Rattle.std.specs.Prelude.{◌≡◌, ◌&&◌, ℕ, Bool, IfSome};
ghost use Rattle.circuit_core.specs.Network.{Network, IsEdge};
ghost use Rattle.circuit_core.specs.Value.{edge_value};

use crate::edge::Edge;

/// The conjunction of two edges that needs no gate: where one is a constant, or both have one node.
pub fn folded(a: Edge, b: Edge) -> Option<Edge>
    ensures edge { (c : Network) → IsEdge c a → IsEdge c b → IfSome result (λ e. IsEdge c e) }
    ensures value { IfSome result (λ e. (c : Network) (x : ℕ → Bool)
        → edge_value c x e ≡ (edge_value c x a && edge_value c x b)) }
{
    if a.code == 0 || b.code == 1 || a.code == b.code {
        return Some(a);
    }
    if b.code == 0 || a.code == 1 {
        return Some(b);
    }
    if a.node() == b.node() {
        return Some(Edge { code: 0 });
    }
    None
}
