//! The test of what `Solver::solve` asks of its assumptions.

ghost use Rattle.std.specs.Prelude.{◌≡◌, ◌↔◌, IsTrue, not};
ghost use Rattle.std.specs.List.{list_all};
ghost use Rattle.clause_core.specs.Literal.{opposite};
ghost use Rattle.clause_core.specs.Members.{has};
ghost use Rattle.sat_solver.specs.Answers.{AreConsistent};

use clause_core::{Lit, contains};

/// Whether each literal's opposite is missing.
fn lack_opposites(lits: &[Lit]) -> bool
    ensures { result ≡ list_all (λ l. not (has lits.now (opposite l))) lits.now }
{
    lits.iter().all(|l| !contains(lits, l.negated()))
}

/// Whether no literal stands among these together with its opposite. It takes no memory, and time
/// quadratic in their number.
pub fn are_consistent(lits: &[Lit]) -> bool
    ensures { IsTrue result ↔ AreConsistent lits.now }
{
    lack_opposites(lits)
}
