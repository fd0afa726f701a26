//! Clauses: lists of literals, of which one has to be true.

ghost use Rattle.std.specs.Prelude.{◌≡◌, ◌↔◌, IfOk, IsTrue};
ghost use Rattle.clause_core.specs.Members.{has};

use crate::assignment::Assignment;
use crate::literal::Lit;
use crate::memory::Memory;
use std::alloc::Global;
use std::marker::Model;

/// Literals in order, of which one has to be true. Contracts see the list. The empty clause is
/// never true, and a literal may stand twice.
#[derive(Debug, Drop)]
pub struct Clause {
    lits: Vec<Lit>,
}

impl Model for Clause {
    ghost use Rattle.std.specs.Prelude.{List};
    ghost use Rattle.clause_core.specs.declared.literal.Lit.{Lit};

    ghost Value = { List Lit };

    ghost view = { λ c. c.lits.items };
}

impl Clause {
    ghost use Rattle.clause_core.specs.Truth.{clause_true};
    ghost use Rattle.clause_core.specs.Formula.{IsInRange};

    /// The clause of these literals, in this order. It takes no memory.
    pub fn make(_alloc: Global, lits: Vec<Lit>) -> Clause
        ensures { result ≡ lits.items }
    {
        Clause { lits }
    }

    /// The literals of the clause, in order.
    pub fn items(&self) -> &[Lit]
        ensures { result.now ≡ self.now }
    {
        self.lits.as_slice()
    }

    /// Another clause of the same literals.
    pub fn copy(&self, alloc: Global) -> Result<Clause, Memory>
        ensures { IfOk result (λ c. c ≡ self.now) }
    {
        let lits = self.items().to_vec(alloc)?;
        Ok(Clause { lits })
    }

    /// Whether the assignment makes some literal of the clause true. It takes no memory.
    pub fn is_satisfied_by(&self, a: &Assignment) -> bool
        ensures { result ≡ clause_true a.now self.now }
    {
        self.items().iter().any(|l| a.is_true(*l))
    }

    /// Whether the variables of the clause are below this number. It takes no memory.
    pub fn is_in_range(&self, variables: u32) -> bool
        ensures { IsTrue result ↔ IsInRange variables self.now }
    {
        self.items().iter().all(|l| l.variable() < variables)
    }
}

/// Whether the literal is one of these. It takes no memory.
pub fn contains(lits: &[Lit], l: Lit) -> bool
    ensures { result ≡ has lits.now l }
{
    lits.iter().any(|k| k.code == l.code)
}
