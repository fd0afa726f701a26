//! Choices between edges: by a condition, and by fresh inputs.

ghost use Rattle.std.specs.Prelude.{◌≡◌, ◌<◌, ◌≤◌, ◌+◌, ℕ, Bool, All, Any, length, IfOk, OnOk, OnErr, if◌then◌else◌};
ghost use Rattle.circuit_core.specs.Network.{IsEdge};
ghost use Rattle.circuit_core.specs.Value.{edge_value};
ghost use Rattle.circuit_core.specs.Growth.{KeepsEdges, Grows, Picks, CanBe};

use crate::circuit::Circuit;
use crate::edge::{Edge, not};
use crate::memory::Memory;

impl Circuit {
    /// The edge whose value is that of `a` where `c` is true, and else that of `b`.
    pub fn ite(&mut self, c: Edge, a: Edge, b: Edge) -> Result<Edge, Memory>
        requires c_edge { IsEdge self.old c }
        requires a_edge { IsEdge self.old a }
        requires b_edge { IsEdge self.old b }
        ensures edge { IfOk result (λ e. IsEdge self.new e) }
        ensures value { IfOk result (λ e. (x : ℕ → Bool) → edge_value self.new x e
            ≡ (if edge_value self.old x c then edge_value self.old x a else edge_value self.old x b)) }
        ensures inputs { self.new.inputs ≡ self.old.inputs }
        ensures keeps { KeepsEdges self.old self.new }
        ensures grows { Grows self.old self.new }
        ensures err { OnErr result (self.new ≡ self.old) }
    {
        let before = self.mark();
        match self.by_condition(c, a, b) {
            Ok(e) => Ok(e),
            Err(Memory) => {
                self.take_back(before);
                Err(Memory)
            }
        }
    }

    /// The work of `ite`. After want of memory some of its gates may stand.
    fn by_condition(&mut self, c: Edge, a: Edge, b: Edge) -> Result<Edge, Memory>
        requires c_edge { IsEdge self.old c }
        requires a_edge { IsEdge self.old a }
        requires b_edge { IsEdge self.old b }
        ensures edge { IfOk result (λ e. IsEdge self.new e) }
        ensures value { IfOk result (λ e. (x : ℕ → Bool) → edge_value self.new x e
            ≡ (if edge_value self.old x c then edge_value self.old x a else edge_value self.old x b)) }
        ensures inputs { self.new.inputs ≡ self.old.inputs }
        ensures grows { Grows self.old self.new }
    {
        if a == b {
            return Ok(a);
        }
        let first = self.and(c, a)?;
        let second = self.and(not(c), b)?;
        let neither = self.and(not(first), not(second))?;
        Ok(not(neither))
    }

    /// An edge whose value is that of any one of these, as fresh inputs say: which one depends on
    /// them alone, and each is the one for some values of them.
    pub fn choose(&mut self, from: &[Edge]) -> Result<Edge, Memory>
        requires some { 0 < length from.now }
        requires edges { All (IsEdge self.old) from.now }
        ensures edge { IfOk result (λ e. IsEdge self.new e) }
        ensures one { IfOk result (λ e. (y : ℕ → Bool) → Any (Picks self.old self.new e y) from.now) }
        ensures each { IfOk result (λ e. All (CanBe self.old self.new e) from.now) }
        ensures keeps { KeepsEdges self.old self.new }
        ensures grows { Grows self.old self.new }
        ensures err { OnErr result (self.new ≡ self.old) }
    {
        let before = self.mark();
        match self.by_inputs(from) {
            Ok(e) => Ok(e),
            Err(Memory) => {
                self.take_back(before);
                Err(Memory)
            }
        }
    }

    /// The work of `choose`. After want of memory some of its inputs and gates may stand.
    fn by_inputs(&mut self, from: &[Edge]) -> Result<Edge, Memory>
        requires some { 0 < length from.now }
        requires edges { All (IsEdge self.old) from.now }
        ensures edge { IfOk result (λ e. IsEdge self.new e) }
        ensures one { IfOk result (λ e. (y : ℕ → Bool) → Any (Picks self.old self.new e y) from.now) }
        ensures each { IfOk result (λ e. All (CanBe self.old self.new e) from.now) }
        ensures grows { Grows self.old self.new }
    {
        let mut chosen = from[0];
        for e in &from[1..] {
            chosen = self.either(*e, chosen)?;
        }
        Ok(chosen)
    }

    /// An edge whose value is that of `a` where a fresh input is true, and else that of `b`.
    fn either(&mut self, a: Edge, b: Edge) -> Result<Edge, Memory>
        requires a_edge { IsEdge self.old a }
        requires b_edge { IsEdge self.old b }
        ensures edge { IfOk result (λ e. IsEdge self.new e) }
        ensures value { IfOk result (λ e. (x : ℕ → Bool) → edge_value self.new x e
            ≡ (if x self.old.inputs then edge_value self.old x a else edge_value self.old x b)) }
        ensures inputs { OnOk result (self.new.inputs ≡ self.old.inputs + 1) }
        ensures grows { Grows self.old self.new }
    {
        let fresh = self.input()?;
        let e = self.ite(fresh, a, b)?;
        Ok(e)
    }
}
