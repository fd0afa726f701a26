//! The solver as callers see it.

ghost use Rattle.std.specs.Prelude.{◌≡◌, ◌<◌, ◌^◌, ◌∷◌, ◌++◌, [], length, take, map, Bool, IsTrue, IfOk, OnOk, OnErr, List};
ghost use Rattle.std.specs.List.{list_all};
ghost use Rattle.clause_core.specs.Formula.{IsInRange};
ghost use Rattle.clause_core.specs.Truth.{literal_true, all_true};
ghost use Rattle.clause_derivation.specs.Derivation.{IsDerivation};
ghost use Rattle.clause_derivation.specs.Renumbering.{moved_chain};

use crate::engine::Engine;
use crate::search::run;
use crate::verdict::Verdict;
use clause_core::{Clause, Cnf, Lit, Memory};
use clause_derivation::Log;
use clause_derivation::derivation::derivations_hold;
use std::alloc::Global;
use std::marker::Model;

/// A solver: clauses that are added, and a log that derives each clause that was learned. Contracts
/// see a `Reasoning`: the formula and the log. At every moment each chain of the log derives its
/// result from the clauses of the formula and the results of earlier chains.
#[derive(Drop)]
pub struct Solver {
    cnf: Cnf,
    log: Log,
    engine: Engine,
}

impl Model for Solver {
    ghost use Rattle.sat_solver.specs.Answers.{Reasoning};
    ghost use Rattle.sat_solver.specs.Searching.{IsSolver};

    ghost Value = { Reasoning };

    ghost view = { λ s. record { cnf = s.cnf; log = s.log } };

    ghost invariant = { λ s. IsSolver s.cnf s.log s.engine };
}

impl Solver {
    ghost use Rattle.sat_solver.specs.Answers.{AreConsistent, Satisfies, IsCore, IfSatisfied, IfCore};

    /// The solver over this many variables, without clauses. More than 2^31 variables are answered
    /// as want of memory.
    pub fn make(alloc: Global, variables: u32) -> Result<Solver, Memory>
        ensures variables { IfOk result (λ s. s.cnf.variables ≡ variables) }
        ensures clauses { IfOk result (λ s. s.cnf.clauses ≡ []) }
        ensures log { IfOk result (λ s. s.log ≡ []) }
    {
        let engine = Engine::make(alloc, variables)?;
        Ok(Solver {
            cnf: Cnf::make(alloc, variables),
            log: Log::make(alloc, Vec::new(alloc)),
            engine,
        })
    }

    /// The clauses, in the order of adding. It takes no memory.
    pub fn cnf(&self) -> &Cnf
        ensures value { result.now ≡ self.now.cnf }
        ensures derivation { IsDerivation self.now.cnf.clauses self.now.log }
    {
        &self.cnf
    }

    /// The log: a chain for each conflict. It takes no memory.
    pub fn log(&self) -> &Log
        ensures value { result.now ≡ self.now.log }
        ensures derivation { IsDerivation self.now.cnf.clauses self.now.log }
    {
        &self.log
    }

    /// Adds a clause at the end of the formula. The chains of the log stay, with the numbers of
    /// chains moved up by one. A clause whose number, or the number of a chain after it, would pass
    /// `u32` is answered as want of memory.
    pub fn add(&mut self, c: &Clause) -> Result<(), Memory>
        requires { IsInRange self.old.cnf.variables c.now }
        ensures variables { self.new.cnf.variables ≡ self.old.cnf.variables }
        ensures ok { OnOk result (self.new.cnf.clauses ≡ self.old.cnf.clauses ++ c.now ∷ []) }
        ensures log { OnOk result (self.new.log
            ≡ map (moved_chain (length self.old.cnf.clauses)) self.old.log) }
        ensures err { OnErr result (self.new ≡ self.old) }
        ensures derivation { IsDerivation self.new.cnf.clauses self.new.log }
    {
        let copy = c.copy(self.engine.alloc)?;
        let clauses = self.cnf.clauses().len();
        if clauses + self.log.items().len() > u32::MAX as usize {
            return Err(Memory);
        }
        self.cnf.push(copy)?;
        self.log.make_room(clauses as u32);
        Ok(())
    }

    /// Whether the clauses can be satisfied with all assumptions true. The clauses stay, and the
    /// log gains the chains of the conflicts. It answers nothing but a satisfying assignment, a core
    /// of the assumptions, and want of memory; a number that would pass `u32` is want of memory.
    pub fn solve(&mut self, assumptions: &[Lit]) -> Result<Verdict, Memory>
        requires range { IsInRange self.old.cnf.variables assumptions.now }
        requires consistent { AreConsistent assumptions.now }
        ensures satisfied { IfOk result (λ v. IfSatisfied v (λ a.
            Satisfies a self.old.cnf.clauses assumptions.now)) }
        ensures length { IfOk result (λ v. IfSatisfied v (λ a.
            length a ≡ self.old.cnf.variables)) }
        ensures core { IfOk result (λ v. IfCore v (λ used at.
            IsCore assumptions.now self.new.log used at)) }

        // No assignment satisfies the clauses and makes the used assumptions true.
        ensures refuted { IfOk result (λ v. IfCore v (λ used at. (a : List Bool)
            → IsTrue (all_true a self.old.cnf.clauses)
            → IsTrue (list_all (literal_true a) used) → ⊥)) }
        ensures cnf { self.new.cnf ≡ self.old.cnf }
        ensures log { take (length self.old.log) self.new.log ≡ self.old.log }
        ensures derivation { IsDerivation self.new.cnf.clauses self.new.log }
    {
        derivations_hold();
        let verdict = run(&self.cnf, &mut self.log, &mut self.engine, assumptions)?;
        Ok(verdict)
    }
}
