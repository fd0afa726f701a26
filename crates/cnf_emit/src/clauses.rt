//! Small clauses, and formulas of lists of clauses.

ghost use Rattle.std.specs.Prelude.{◌≡◌, [], ◌∷◌, IfOk};
ghost use Rattle.clause_core.specs.Formula.{AreInRange};

use clause_core::{Clause, Cnf, Lit, Memory};
use std::alloc::Global;

/// The clause of one literal.
pub fn single(alloc: Global, l: Lit) -> Result<Clause, Memory>
    ensures { IfOk result (λ c. c ≡ l ∷ []) }
{
    let lits = vec![in alloc; l]?;
    Ok(Clause::make(alloc, lits))
}

/// The clause of two literals.
pub fn pair(alloc: Global, l: Lit, m: Lit) -> Result<Clause, Memory>
    ensures { IfOk result (λ c. c ≡ l ∷ m ∷ []) }
{
    let lits = vec![in alloc; l, m]?;
    Ok(Clause::make(alloc, lits))
}

/// The clause of three literals.
pub fn triple(alloc: Global, l: Lit, m: Lit, n: Lit) -> Result<Clause, Memory>
    ensures { IfOk result (λ c. c ≡ l ∷ m ∷ n ∷ []) }
{
    let lits = vec![in alloc; l, m, n]?;
    Ok(Clause::make(alloc, lits))
}

/// The formula of these clauses, in this order.
pub fn formula_of(alloc: Global, variables: u32, clauses: Vec<Clause>) -> Result<Cnf, Memory>
    requires { AreInRange variables clauses.items }
    ensures variables { IfOk result (λ f. f.variables ≡ variables) }
    ensures clauses { IfOk result (λ f. f.clauses ≡ clauses.items) }
{
    let mut cnf = Cnf::make(alloc, variables);
    for clause in clauses {
        cnf.push(clause)?;
    }
    Ok(cnf)
}
