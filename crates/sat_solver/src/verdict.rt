//! The answers of the solver.

ghost use Rattle.std.specs.Prelude.{◌≡◌};

use clause_core::{Assignment, Lit};
use std::alloc::Global;
use std::marker::Model;

/// Literals in order. Contracts see the list.
#[derive(Debug, Drop)]
pub struct Lits {
    held: Vec<Lit>,
}

impl Model for Lits {
    ghost use Rattle.std.specs.Prelude.{List};
    ghost use Rattle.clause_core.specs.declared.literal.Lit.{Lit};

    ghost Value = { List Lit };

    ghost view = { λ s. s.held.items };
}

impl Lits {
    /// These literals, in this order. It takes no memory.
    pub fn make(_alloc: Global, items: Vec<Lit>) -> Lits
        ensures { result ≡ items.items }
    {
        Lits { held: items }
    }

    /// The literals, in order.
    pub fn items(&self) -> &[Lit]
        ensures { result.now ≡ self.now }
    {
        self.held.as_slice()
    }
}

/// What the solver finds under assumptions.
#[derive(Debug, Drop)]
pub enum Verdict {
    /// This assignment satisfies all clauses and makes all assumptions true.
    Satisfied(Assignment),
    /// No assignment satisfies all clauses and makes all used assumptions true.
    Core {
        /// The assumptions that were used.
        used: Lits,
        /// The place in the log of the chain that derives a clause of their opposites.
        at: u32,
    },
}
