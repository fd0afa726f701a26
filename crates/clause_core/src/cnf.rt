//! Formulas in conjunctive normal form, and whether an assignment satisfies one.

ghost use Rattle.std.specs.Prelude.{◌≡◌, ◌^◌, ◌≤◌, [], ◌∷◌, ◌++◌, length, OnOk, OnErr};
ghost use Rattle.clause_core.specs.Truth.{all_true};

use crate::assignment::Assignment;
use crate::clause::Clause;
use crate::memory::Memory;
use std::alloc::Global;
use std::marker::Model;

/// Clauses that have all to be true, over a number of variables. Contracts see a `Formula`: the
/// number of variables and the list of clauses. The variables of all clauses are below that number,
/// and each clause has its place, from 0, as a `u32` number.
#[derive(Debug, Drop)]
pub struct Cnf {
    variables: u32,
    clauses: Vec<Clause>,
}

impl Model for Cnf {
    ghost use Rattle.clause_core.specs.Formula.{Formula, IsFormula};

    ghost Value = { Formula };

    ghost view = { λ f. record { variables = f.variables; clauses = f.clauses.items } };

    ghost invariant = { λ f. IsFormula f.variables f.clauses.items };
}

impl Cnf {
    ghost use Rattle.clause_core.specs.Formula.{IsInRange, AreInRange};

    /// The formula over this many variables that has no clauses. It takes no memory.
    pub fn make(alloc: Global, variables: u32) -> Cnf
        ensures variables { result.variables ≡ variables }
        ensures clauses { result.clauses ≡ [] }
    {
        Cnf {
            variables,
            clauses: Vec::new(alloc),
        }
    }

    /// How many variables the formula is over.
    pub fn variables(&self) -> u32
        ensures { result ≡ self.now.variables }
    {
        self.variables
    }

    /// The clauses, in order.
    pub fn clauses(&self) -> &[Clause]
        ensures items { result.now ≡ self.now.clauses }
        ensures range { AreInRange self.now.variables self.now.clauses }
        ensures count { length self.now.clauses ≤ 2 ^ 32 }
    {
        self.clauses.as_slice()
    }

    /// Adds a clause at the end. Its variables have to be among those of the formula. A clause
    /// whose number would pass `u32` is answered as want of memory.
    pub fn push(&mut self, c: Clause) -> Result<(), Memory>
        requires { IsInRange self.old.variables c }
        ensures variables { self.new.variables ≡ self.old.variables }
        ensures ok { OnOk result (self.new.clauses ≡ self.old.clauses ++ c ∷ []) }
        ensures err { OnErr result (self.new.clauses ≡ self.old.clauses) }
    {
        if self.clauses.len() > u32::MAX as usize {
            return Err(Memory);
        }
        self.clauses.push(c)?;
        Ok(())
    }

    /// Makes the formula one over more variables, or as many. The clauses stay. It takes no memory.
    pub fn raise_variables(&mut self, variables: u32)
        requires { self.old.variables ≤ variables }
        ensures variables { self.new.variables ≡ variables }
        ensures clauses { self.new.clauses ≡ self.old.clauses }
    {
        self.variables = variables;
    }
}

/// Whether the assignment satisfies each clause of the formula. It takes no memory.
pub fn satisfies(cnf: &Cnf, a: &Assignment) -> bool
    ensures { result ≡ all_true a.now cnf.now.clauses }
{
    cnf.clauses().iter().all(|c| c.is_satisfied_by(a))
}
