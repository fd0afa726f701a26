//! What has been emitted: variables, clauses, and the literal of each node so far.

ghost use Rattle.std.specs.Prelude.{◌≡◌, ◌+◌, ◌-◌, ◌<◌, ◌^◌, ◌++◌, ◌∷◌, [], Bool, ℕ, length, map, IfOk, OnOk, All};

use crate::clauses::{formula_of, pair, single, triple};
use circuit_core::{Edge, Gate};
use clause_core::{Clause, Cnf, Lit, MOST_VARIABLES, Memory};
use std::alloc::Global;
use std::marker::Model;

/// What has been emitted so far. Contracts see a `Sketch`.
#[derive(Debug, Drop)]
pub struct Draft {
    variables: u32,
    clauses: Vec<Clause>,
    lits: Vec<Lit>,
}

impl Model for Draft {
    ghost use Rattle.cnf_emit.specs.Drafts.{Sketch};

    ghost Value = { Sketch };

    ghost view = { λ d. record { variables = d.variables; clauses = d.clauses.items; lits = d.lits.items } };
}

impl Draft {
    ghost use Rattle.clause_core.specs.Literal.{positive};
    ghost use Rattle.clause_core.specs.Formula.{AreInRange};
    ghost use Rattle.circuit_core.specs.Edges.{node_of};
    ghost use Rattle.circuit_core.specs.Network.{IsGateAt};
    ghost use Rattle.cnf_emit.specs.Reach.{StandsOnUpTo};
    ghost use Rattle.cnf_emit.specs.Drafts.{Sketch, node_lit, edge_lit, with_node, with_variable, with_defined, false_clauses, and_clauses, with_constant, with_gate};

    /// The draft that has these variables and nothing else. It takes no memory.
    pub fn make(alloc: Global, variables: u32) -> Draft
        ensures { result ≡ record { variables = variables; clauses = []; lits = [] } }
    {
        Draft {
            variables,
            clauses: Vec::new(alloc),
            lits: Vec::new(alloc),
        }
    }

    /// Gives the next node a variable that is there.
    fn place(&mut self, variable: u32) -> Result<(), Memory>
        requires { variable < 2 ^ 31 }
        ensures { OnOk result (self.new ≡ with_node self.old variable) }
    {
        self.lits.push(Lit::positive(variable))?;
        Ok(())
    }

    /// The number of a new variable, where one is left.
    fn next_variable(&self) -> Result<u32, Memory>
        ensures value { IfOk result (λ v. v ≡ self.now.variables) }
        ensures range { IfOk result (λ v. v < 2 ^ 31) }
    {
        if self.variables >= MOST_VARIABLES {
            return Err(Memory);
        }
        Ok(self.variables)
    }

    /// Adds a variable, for which the clauses are there.
    fn count_variable(&mut self)
        requires { self.old.variables < 2 ^ 31 }
        ensures { self.new ≡ with_variable self.old [] }
    {
        self.variables += 1;
    }

    /// Adds a clause.
    fn add(&mut self, clause: Clause) -> Result<(), Memory>
        ensures { OnOk result (self.new ≡ record self.old { clauses = self.old.clauses ++ clause ∷ [] }) }
    {
        self.clauses.push(clause)?;
        Ok(())
    }

    /// The constant false, as the first node.
    pub fn constant(&mut self, alloc: Global, needed: bool) -> Result<(), Memory>
        ensures { OnOk result (self.new ≡ with_constant self.old needed) }
    {
        if !needed {
            return self.place(0);
        }
        let v = self.next_variable()?;
        self.add(single(alloc, Lit::negative(v))?)?;
        self.count_variable();
        self.place(v)
    }

    /// The next node, that a gate gives.
    pub fn gate(
        &mut self,
        alloc: Global,
        needed: bool,
        gate: Gate,
        inputs: u32,
    ) -> Result<(), Memory>
        requires few { inputs < 2 ^ 31 }
        requires below { IsGateAt inputs (length self.old.lits - 1) gate }
        requires nodes { 0 < length self.old.lits }
        ensures { OnOk result (self.new ≡ with_gate self.old needed gate) }
    {
        if !needed {
            return self.place(0);
        }
        match gate {
            Gate::Input(k) => self.place(k),
            Gate::And(a, b) => self.conjunction(alloc, a, b),
        }
    }

    /// The next node, as the conjunction of two edges of earlier ones.
    fn conjunction(&mut self, alloc: Global, a: Edge, b: Edge) -> Result<(), Memory>
        requires a_node { node_of a < length self.old.lits }
        requires b_node { node_of b < length self.old.lits }
        ensures { OnOk result (self.new ≡ with_defined self.old
            (and_clauses self.old.variables (edge_lit self.old.lits a) (edge_lit self.old.lits b))) }
    {
        let v = self.next_variable()?;
        let l = self.literal(a);
        let m = self.literal(b);
        self.add(pair(alloc, Lit::negative(v), l)?)?;
        self.add(pair(alloc, Lit::negative(v), m)?)?;
        self.add(triple(alloc, Lit::positive(v), l.negated(), m.negated())?)?;
        self.count_variable();
        self.place(v)
    }

    /// The literal of an edge of an earlier node.
    fn literal(&self, e: Edge) -> Lit
        requires { node_of e < length self.now.lits }
        ensures { result ≡ edge_lit self.now.lits e }
    {
        let l = self.lits[e.node() as usize];
        if e.is_negated() { l.negated() } else { l }
    }

    /// The literals of edges.
    pub fn literals(&self, alloc: Global, edges: &[Edge]) -> Result<Vec<Lit>, Memory>
        requires { All (λ e. node_of e < length self.now.lits) edges.now }
        ensures { IfOk result (λ lits. lits.items ≡ map (edge_lit self.now.lits) edges.now) }
    {
        let mut lits = Vec::new(alloc);
        for e in edges {
            lits.push(self.literal(*e))?;
        }
        Ok(lits)
    }

    /// The formula of what has been emitted.
    pub fn formula(self, alloc: Global) -> Result<Cnf, Memory>
        requires { AreInRange self.variables self.clauses }
        ensures variables { IfOk result (λ f. f.variables ≡ self.variables) }
        ensures clauses { IfOk result (λ f. f.clauses ≡ self.clauses) }
    {
        formula_of(alloc, self.variables, self.clauses)
    }
}
