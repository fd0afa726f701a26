//! Clauses that no assignment satisfies, and a log that derives the empty clause from them.

ghost use Rattle.std.specs.Prelude.{◌≡◌, ◌++◌, [], ◌∷◌, IfOk, OnOk};
ghost use Rattle.clause_core.specs.Formula.{IsInRange, AreInRange};
ghost use Rattle.clause_derivation.specs.Derivation.{singles};
ghost use Rattle.ic3_frames.specs.Refuting.{IsRefuted};

use clause_core::{Assignment, Clause, Cnf, Lit, Memory};
use clause_derivation::{Log, trim};
use sat_solver::{Solver, Verdict};
use std::alloc::Global;

/// What became of clauses that were to be refuted.
#[derive(Drop)]
pub enum Refuted {
    /// This log derives the empty clause from them.
    Derived(Log),
    /// This assignment satisfies them.
    Satisfied(Assignment),
}

/// Adds clauses to a solver, in order.
fn add_all(solver: &mut Solver, clauses: &[Clause]) -> Result<(), Memory>
    requires { AreInRange solver.old.cnf.variables clauses.now }
    ensures variables { solver.new.cnf.variables ≡ solver.old.cnf.variables }
    ensures clauses { OnOk result (solver.new.cnf.clauses
        ≡ solver.old.cnf.clauses ++ clauses.now) }
{
    for c in clauses {
        solver.add(c)?;
    }
    Ok(())
}

/// The clause of one literal.
fn single(alloc: Global, l: Lit) -> Result<Clause, Memory>
    ensures { IfOk result (λ c. c ≡ l ∷ []) }
{
    let lits = vec![in alloc; l]?;
    Ok(Clause::make(alloc, lits))
}

/// Adds a clause of one literal for each of these, in order.
fn add_units(alloc: Global, solver: &mut Solver, units: &[Lit]) -> Result<(), Memory>
    requires { IsInRange solver.old.cnf.variables units.now }
    ensures variables { solver.new.cnf.variables ≡ solver.old.cnf.variables }
    ensures clauses { OnOk result (solver.new.cnf.clauses
        ≡ solver.old.cnf.clauses ++ singles units.now) }
{
    for l in units {
        let c = single(alloc, *l)?;
        solver.add(&c)?;
    }
    Ok(())
}

/// What a solver answers without assumptions. Its log is cut down to what the last chain stands on.
fn settled(alloc: Global, solver: &mut Solver) -> Result<Refuted, Memory>
    ensures { IfOk result (IsRefuted solver.old.cnf.clauses) }
{
    match solver.solve(&[])? {
        Verdict::Satisfied(a) => Ok(Refuted::Satisfied(a)),
        Verdict::Core { used: _, at: _ } => {
            let clauses = solver.cnf().clauses().len();
            let log = trim(alloc, clauses, solver.log())?;
            Ok(Refuted::Derived(log))
        }
    }
}

/// A log that derives the empty clause from the clauses of a formula, more clauses and one single
/// clause for each unit, in this order; or an assignment that satisfies them all. The log has only
/// the chains that its last one stands on.
pub fn refute(alloc: Global, cnf: &Cnf, more: &[Clause], units: &[Lit]) -> Result<Refuted, Memory>
    requires more { AreInRange cnf.now.variables more.now }
    requires units { IsInRange cnf.now.variables units.now }
    ensures { IfOk result (IsRefuted (cnf.now.clauses ++ more.now ++ singles units.now)) }
{
    let mut solver = Solver::make(alloc, cnf.variables())?;
    add_all(&mut solver, cnf.clauses())?;
    add_all(&mut solver, more)?;
    add_units(alloc, &mut solver, units)?;
    let answer = settled(alloc, &mut solver)?;
    Ok(answer)
}
