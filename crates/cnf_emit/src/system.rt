//! Systems of states in bits: what a start is, what a step is, and which states are bad.

ghost use Rattle.std.specs.Prelude.{◌≡◌};

use clause_core::{Cnf, Lit};
use std::marker::Model;

/// Formulas for the starts and the steps of a system, whose states are lists of bits. Contracts see a
/// `System` that has all that `IsSystem` says.
#[derive(Debug, Drop)]
pub struct BitSystem {
    start: Cnf,
    step: Cnf,
    current: Vec<Lit>,
    next: Vec<Lit>,
    bad: Lit,
    bad_next: Lit,
}

impl Model for BitSystem {
    ghost use Rattle.cnf_emit.specs.Systems.{System, IsSystem};

    ghost Value = { System };

    ghost view = { λ s. record {
      start = s.start;
      step = s.step;
      current = s.current.items;
      next = s.next.items;
      bad = s.bad;
      bad_next = s.bad_next;
    } };

    ghost invariant = { λ s. IsSystem (record {
      start = s.start;
      step = s.step;
      current = s.current.items;
      next = s.next.items;
      bad = s.bad;
      bad_next = s.bad_next;
    }) };
}

impl BitSystem {
    ghost use Rattle.cnf_emit.specs.Systems.{System, IsSystem};

    /// The system of these parts. It takes no memory.
    pub fn make(
        start: Cnf,
        step: Cnf,
        current: Vec<Lit>,
        next: Vec<Lit>,
        bad: Lit,
        bad_next: Lit,
    ) -> BitSystem
        requires { IsSystem (record { start = start; step = step; current = current.items; next = next.items; bad = bad; bad_next = bad_next }) }
        ensures start { result.start ≡ start }
        ensures step { result.step ≡ step }
        ensures current { result.current ≡ current.items }
        ensures next { result.next ≡ next.items }
        ensures bad { result.bad ≡ bad }
        ensures bad_next { result.bad_next ≡ bad_next }
    {
        BitSystem {
            start,
            step,
            current,
            next,
            bad,
            bad_next,
        }
    }

    /// The formula of the starts.
    pub fn start(&self) -> &Cnf
        ensures value { result.now ≡ self.now.start }
        ensures system { IsSystem self.now }
    {
        &self.start
    }

    /// The formula of the steps.
    pub fn step(&self) -> &Cnf
        ensures value { result.now ≡ self.now.step }
        ensures system { IsSystem self.now }
    {
        &self.step
    }

    /// The bits of a state.
    pub fn current(&self) -> &[Lit]
        ensures value { result.now ≡ self.now.current }
        ensures system { IsSystem self.now }
    {
        self.current.as_slice()
    }

    /// The bits of the state after a step, each at the place of its bit before.
    pub fn next(&self) -> &[Lit]
        ensures value { result.now ≡ self.now.next }
        ensures system { IsSystem self.now }
    {
        self.next.as_slice()
    }

    /// Whether a state is bad.
    pub fn bad(&self) -> Lit
        ensures value { result ≡ self.now.bad }
        ensures system { IsSystem self.now }
    {
        self.bad
    }

    /// Whether the state after a step is bad.
    pub fn bad_next(&self) -> Lit
        ensures value { result ≡ self.now.bad_next }
        ensures system { IsSystem self.now }
    {
        self.bad_next
    }
}
