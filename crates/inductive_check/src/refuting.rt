//! The logs of a certificate, each checked over its list of clauses.

ghost use Rattle.std.specs.Prelude.{◌≡◌, ◌≤◌, ◌↔◌, ◌++◌, [], ◌∷◌, IsTrue, All};
ghost use Rattle.clause_core.specs.Formula.{AreInRange};
ghost use Rattle.clause_core.specs.Literal.{opposite};
ghost use Rattle.clause_derivation.specs.Derivation.{singles};
ghost use Rattle.inductive_check.specs.Certificates.{IsOwn, Refutes, start_base, start_last, step_base, step_last};

use crate::renaming::{add_opposites, add_renamed};
use clause_core::{Clause, Cnf, Lit};
use clause_derivation::{Log, Marks, check_under};
use cnf_emit::BitSystem;

/// Whether a log is a derivation of the empty clause from a formula, more clauses and the units that
/// the marks hold.
fn refutes(cnf: &Cnf, more: &[Clause], log: &Log, marks: &mut Marks) -> bool
    requires cnf_fits { cnf.now.variables ≤ marks.old.variables }
    requires more_fits { AreInRange marks.old.variables more.now }
    ensures exact { IsTrue result
        ↔ Refutes (cnf.now.clauses ++ more.now ++ singles marks.old.units) log.now }
    ensures same { marks.new ≡ marks.old }
{
    if !check_under(cnf, more, log, marks) {
        return false;
    }
    log.ends_empty()
}

/// Whether a log shows that each start satisfies a clause.
pub fn starts_satisfy(system: &BitSystem, clause: &Clause, log: &Log, marks: &mut Marks) -> bool
    requires room { system.now.start.variables ≤ marks.old.variables }
    requires own { IsOwn system.now.current clause.now }
    ensures exact { IsTrue result ↔ Refutes (start_base system.now clause.now) log.now }
    ensures variables { marks.new.variables ≡ marks.old.variables }
{
    let start = system.start();
    marks.clear_units();
    add_opposites(marks, clause.items());
    refutes(start, &[], log, marks)
}

/// Whether a log shows that no start is bad.
pub fn starts_clean(system: &BitSystem, log: &Log, marks: &mut Marks) -> bool
    requires room { system.now.start.variables ≤ marks.old.variables }
    ensures exact { IsTrue result ↔ Refutes (start_last system.now) log.now }
    ensures variables { marks.new.variables ≡ marks.old.variables }
{
    marks.clear_units();
    marks.add_unit(system.bad());
    refutes(system.start(), &[], log, marks)
}

/// Makes "not bad" the one unit.
fn assume_clean(system: &BitSystem, marks: &mut Marks)
    requires { system.now.step.variables ≤ marks.old.variables }
    ensures variables { marks.new.variables ≡ marks.old.variables }
    ensures units { marks.new.units ≡ opposite system.now.bad ∷ [] }
{
    marks.clear_units();
    marks.add_unit(system.bad().negated());
}

/// Whether a log shows that each step from a state that satisfies all clauses and is not bad leads
/// to a state that satisfies one of them.
pub fn steps_keep(
    system: &BitSystem,
    clauses: &[Clause],
    clause: &Clause,
    log: &Log,
    marks: &mut Marks,
) -> bool
    requires room { system.now.step.variables ≤ marks.old.variables }
    requires all { All (IsOwn system.now.current) clauses.now }
    requires own { IsOwn system.now.current clause.now }
    ensures exact { IsTrue result ↔ Refutes (step_base system.now clauses.now clause.now) log.now }
    ensures variables { marks.new.variables ≡ marks.old.variables }
{
    assume_clean(system, marks);
    add_renamed(marks, system.current(), system.next(), clause.items());
    refutes(system.step(), clauses, log, marks)
}

/// Whether a log shows that no step from a state that satisfies all clauses and is not bad leads to
/// a bad state.
pub fn steps_stay_clean(
    system: &BitSystem,
    clauses: &[Clause],
    log: &Log,
    marks: &mut Marks,
) -> bool
    requires room { system.now.step.variables ≤ marks.old.variables }
    requires all { All (IsOwn system.now.current) clauses.now }
    ensures exact { IsTrue result ↔ Refutes (step_last system.now clauses.now) log.now }
    ensures variables { marks.new.variables ≡ marks.old.variables }
{
    assume_clean(system, marks);
    marks.add_unit(system.bad_next());
    refutes(system.step(), clauses, log, marks)
}
