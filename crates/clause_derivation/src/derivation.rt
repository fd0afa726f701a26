//! The check of a log: whether each chain derives its result.

ghost use Rattle.std.specs.Prelude.{◌≡◌, ◌≤◌, ◌++◌, ◌↔◌, ℕ, Bool, List, IsTrue};
ghost use Rattle.clause_core.specs.declared.literal.Lit.{Lit as Literal};
ghost use Rattle.clause_core.specs.Truth.{all_true};
ghost use Rattle.clause_core.specs.Formula.{AreInRange};
ghost use Rattle.clause_derivation.specs.declared.chain.Chain.{Chain};
ghost use Rattle.clause_derivation.specs.Derivation.{ArePivotsInRange, IsDerivation, EndsEmpty, HoldsUnder, results, singles};

use crate::chain::Log;
use crate::checking::check_chains;
use crate::marks::Marks;
use crate::numbering::Numbered;
use clause_core::{Clause, Cnf};

/// Whether each chain of the log derives its result from the clauses of the formula and the results
/// of earlier chains. The units that the marks hold play no part. It takes no memory, and time
/// linear in the length of the clauses that the chains name and derive.
pub fn check(cnf: &Cnf, log: &Log, marks: &mut Marks) -> bool
    requires { cnf.now.variables ≤ marks.old.variables }
    ensures exact { IsTrue result ↔ IsDerivation cnf.now.clauses log.now }
    ensures same { marks.new ≡ marks.old }

    // An assignment that satisfies the formula satisfies each result, so none does where the last
    // is empty.
    ensures sound { IsTrue result → (a : List Bool) → IsTrue (all_true a cnf.now.clauses)
        → IsTrue (all_true a (results log.now)) }
    ensures refuted { IsTrue result → EndsEmpty log.now
        → (a : List Bool) → IsTrue (all_true a cnf.now.clauses) → ⊥ }
{
    let base = Numbered {
        cnf: cnf.clauses(),
        more: &[],
        units: &[],
        chains: &[],
    };
    check_chains(&base, log.items(), marks.marked.as_mut_slice())
}

/// The same check over a longer list of clauses: those of the formula, then more, then one single
/// clause for each unit that the marks hold, in the order of adding. The units stay. It takes no
/// memory.
pub fn check_under(cnf: &Cnf, more: &[Clause], log: &Log, marks: &mut Marks) -> bool
    requires cnf_fits { cnf.now.variables ≤ marks.old.variables }
    requires more_fits { AreInRange marks.old.variables more.now }
    ensures exact { IsTrue result
        ↔ IsDerivation (cnf.now.clauses ++ more.now ++ singles marks.old.units) log.now }
    ensures same { marks.new ≡ marks.old }

    // An assignment that satisfies the formula, more and the units satisfies each result, so none
    // does where the last is empty.
    ensures sound { IsTrue result → (a : List Bool)
        → HoldsUnder a cnf.now.clauses more.now marks.old.units
        → IsTrue (all_true a (results log.now)) }
    ensures refuted { IsTrue result → EndsEmpty log.now
        → (a : List Bool) → HoldsUnder a cnf.now.clauses more.now marks.old.units → ⊥ }
{
    let base = Numbered {
        cnf: cnf.clauses(),
        more,
        units: marks.units.as_slice(),
        chains: &[],
    };
    check_chains(&base, log.items(), marks.marked.as_mut_slice())
}

/// The law of derivations: an assignment that satisfies the clauses satisfies each result, so none
/// does where the last chain is the empty clause. It does nothing.
pub fn derivations_hold()
    ensures sound { (a : List Bool) (clauses : List (List Literal)) (chains : List Chain)
        → IsTrue (all_true a clauses) → IsDerivation clauses chains
        → IsTrue (all_true a (results chains)) }
    ensures refuted { (clauses : List (List Literal)) (chains : List Chain)
        → IsDerivation clauses chains → EndsEmpty chains
        → (a : List Bool) → IsTrue (all_true a clauses) → ⊥ }
{}

/// The law of ranges: where the clauses are over the first n variables, so are all results of a
/// derivation from them, and each step is on one of these variables. It does nothing.
pub fn derivations_stay_in_range()
    ensures results { (n : ℕ) (clauses : List (List Literal)) (chains : List Chain)
        → AreInRange n clauses → IsDerivation clauses chains → AreInRange n (results chains) }
    ensures pivots { (n : ℕ) (clauses : List (List Literal)) (chains : List Chain)
        → AreInRange n clauses → IsDerivation clauses chains → ArePivotsInRange n chains }
{}
