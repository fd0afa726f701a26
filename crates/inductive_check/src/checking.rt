//! The checker of certificates.

ghost use Rattle.std.specs.Prelude.{◌≡◌, ◌≤◌, ◌↔◌, [], Bool, List, All, IsTrue};
ghost use Rattle.inductive_check.specs.Certificates.{IsCertificate, IsOwn, AreLogs, start_base, start_last, step_base, step_last};
ghost use Rattle.inductive_check.specs.Paths.{IsSteady, IsBadPath};

use crate::certificate::Certificate;
use crate::law::certificates_hold;
use crate::owning::are_own;
use crate::refuting::{starts_clean, starts_satisfy, steps_keep, steps_stay_clean};
use clause_core::Clause;
use clause_derivation::{Log, Marks};
use cnf_emit::BitSystem;

/// Whether the start logs show that each start satisfies all clauses and is not bad.
fn starts_hold(system: &BitSystem, clauses: &[Clause], logs: &[Log], marks: &mut Marks) -> bool
    requires room { system.now.start.variables ≤ marks.old.variables }
    requires own { All (IsOwn system.now.current) clauses.now }
    ensures exact { IsTrue result
        ↔ AreLogs (start_base system.now) (start_last system.now) clauses.now logs.now }
    ensures variables { marks.new.variables ≡ marks.old.variables }
{
    if logs.len() != clauses.len() + 1 {
        return false;
    }
    for (i, clause) in clauses.iter().enumerate() {
        if !starts_satisfy(system, clause, &logs[i], marks) {
            return false;
        }
    }
    starts_clean(system, &logs[clauses.len()], marks)
}

/// Whether the step logs show that each step from a state that satisfies all clauses and is not bad
/// leads to such a state.
fn steps_hold(system: &BitSystem, clauses: &[Clause], logs: &[Log], marks: &mut Marks) -> bool
    requires room { system.now.step.variables ≤ marks.old.variables }
    requires own { All (IsOwn system.now.current) clauses.now }
    ensures exact { IsTrue result
        ↔ AreLogs (step_base system.now clauses.now) (step_last system.now clauses.now) clauses.now logs.now }
    ensures variables { marks.new.variables ≡ marks.old.variables }
{
    if logs.len() != clauses.len() + 1 {
        return false;
    }
    for (i, clause) in clauses.iter().enumerate() {
        if !steps_keep(system, clauses, clause, &logs[i], marks) {
            return false;
        }
    }
    steps_stay_clean(system, clauses, &logs[clauses.len()], marks)
}

/// Whether all parts of a certificate are as they have to be. Units may be left in the marks.
fn is_certificate(system: &BitSystem, c: &Certificate, marks: &mut Marks) -> bool
    requires start_fits { system.now.start.variables ≤ marks.old.variables }
    requires step_fits { system.now.step.variables ≤ marks.old.variables }
    ensures exact { IsTrue result ↔ IsCertificate system.now c.now }
    ensures variables { marks.new.variables ≡ marks.old.variables }
{
    let clauses = c.clauses();
    if !are_own(system.current(), clauses) {
        return false;
    }
    if !starts_hold(system, clauses, c.starts(), marks) {
        return false;
    }
    steps_hold(system, clauses, c.steps(), marks)
}

/// Whether this is a certificate of the system. The units that the marks hold play no part; they are
/// taken out, and none is left. It takes no memory, and time linear in the length of the clauses
/// that the logs name and derive, and in the length of the certificate's clauses times the bits of
/// a state.
pub fn accept(system: &BitSystem, c: &Certificate, marks: &mut Marks) -> bool
    requires start_fits { system.now.start.variables ≤ marks.old.variables }
    requires step_fits { system.now.step.variables ≤ marks.old.variables }
    ensures exact { IsTrue result ↔ IsCertificate system.now c.now }
    ensures variables { marks.new.variables ≡ marks.old.variables }
    ensures units { marks.new.units ≡ [] }

    // No path of a steady system is bad, where the certificate is accepted.
    ensures law { IsTrue result → IsSteady system.now
        → (path : List (List Bool)) → IsBadPath system.now path → ⊥ }
{
    certificates_hold();
    let accepted = is_certificate(system, c, marks);
    marks.clear_units();
    accepted
}
