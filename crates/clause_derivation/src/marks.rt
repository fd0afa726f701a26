//! The memory that checking a log takes, made once, and the units that a check may stand on.

ghost use Rattle.std.specs.Prelude.{◌≡◌, ◌+◌, ◌*◌, ◌<◌, [], ◌∷◌, ◌++◌, IfOk, length};
ghost use Rattle.clause_core.specs.Literal.{variable_of};

use clause_core::{Lit, MOST_VARIABLES, Memory};
use std::alloc::Global;
use std::marker::Model;

/// Room to check logs over a number of variables, and unit clauses that a check stands on.
/// Contracts see a `MarkScope`: the number of variables, and the units in the order of adding.
/// Between calls nothing is marked, so one `Marks` serves any number of checks.
#[derive(Debug, Drop)]
pub struct Marks {
    pub(crate) variables: u32,
    pub(crate) marked: Vec<bool>,
    pub(crate) units: Vec<Lit>,
}

impl Model for Marks {
    ghost use Rattle.std.specs.Prelude.{vec_capacity};
    ghost use Rattle.clause_derivation.specs.Ready.{MarkScope, IsReady};

    ghost Value = { MarkScope };

    ghost view = { λ m. record { variables = m.variables; units = m.units.items } };

    ghost invariant = { λ m. IsReady m.variables m.marked.items m.units.items (vec_capacity m.units) };
}

impl Marks {
    /// Marks for this many variables, that hold no units. There is room for one unit more than
    /// twice the variables. More than 2^31 variables are answered as want of memory.
    pub fn make(alloc: Global, variables: u32) -> Result<Marks, Memory>
        ensures variables { IfOk result (λ m. m.variables ≡ variables) }
        ensures units { IfOk result (λ m. m.units ≡ []) }
    {
        if variables > MOST_VARIABLES {
            return Err(Memory);
        }
        let count = 2 * variables as usize;
        let marked = vec![in alloc; false; count]?;
        let units = Vec::with_capacity(alloc, count + 1)?;
        Ok(Marks {
            variables,
            marked,
            units,
        })
    }

    /// How many variables the marks were made for.
    pub fn variables(&self) -> u32
        ensures { result ≡ self.now.variables }
    {
        self.variables
    }

    /// The units, in the order of adding.
    pub fn units(&self) -> &[Lit]
        ensures { result.now ≡ self.now.units }
    {
        self.units.as_slice()
    }

    /// Adds a unit after those that are there. It takes no memory.
    pub fn add_unit(&mut self, l: Lit)
        requires room { length self.old.units < 2 * self.old.variables + 1 }
        requires range { variable_of l < self.old.variables }
        ensures variables { self.new.variables ≡ self.old.variables }
        ensures units { self.new.units ≡ self.old.units ++ l ∷ [] }
    {
        self.units.push(l).unwrap();
    }

    /// Takes all units out. It takes no memory.
    pub fn clear_units(&mut self)
        ensures variables { self.new.variables ≡ self.old.variables }
        ensures units { self.new.units ≡ [] }
    {
        self.units.clear();
    }
}
