//! Whether clauses are over given literals alone.

ghost use Rattle.std.specs.Prelude.{◌≡◌, ◌↔◌, All, IsTrue};
ghost use Rattle.inductive_check.specs.Certificates.{is_over, IsOwn};

use clause_core::{Clause, Lit, contains};

/// Whether a literal is one of these or the opposite of one.
fn is_over(lits: &[Lit], l: Lit) -> bool
    ensures { result ≡ is_over lits.now l }
{
    if contains(lits, l) {
        return true;
    }
    contains(lits, l.negated())
}

/// Whether a clause is over these literals alone and has none twice. It takes time linear in the
/// length of the clause times the number of these literals: a clause that is over them has a literal
/// twice as soon as it is longer than twice their number.
fn is_own(lits: &[Lit], clause: &[Lit]) -> bool
    ensures { IsTrue result ↔ IsOwn lits.now clause.now }
{
    for (i, l) in clause.iter().enumerate() {
        if !is_over(lits, *l) {
            return false;
        }
        if contains(&clause[..i], *l) {
            return false;
        }
    }
    true
}

/// Whether each of these clauses is over the literals alone and has none twice.
pub fn are_own(lits: &[Lit], clauses: &[Clause]) -> bool
    ensures { IsTrue result ↔ All (IsOwn lits.now) clauses.now }
{
    for clause in clauses {
        if !is_own(lits, clause.items()) {
            return false;
        }
    }
    true
}
