//! The clauses that have a number, in the order of their numbers.

ghost use Rattle.std.specs.Prelude.{◌≡◌, slice_get, option_map};
ghost use Rattle.clause_derivation.specs.Numbering.{clauses_of};

use crate::chain::Chain;
use clause_core::{Clause, Lit};

/// What a chain may name by a number: the clauses of a formula, then more clauses, then one single
/// clause for each unit, then the results of the chains before it.
#[derive(Clone, Copy)]
pub struct Numbered<'a> {
    pub cnf: &'a [Clause],
    pub more: &'a [Clause],
    pub units: &'a [Lit],
    pub chains: &'a [Chain],
}

impl<'a> Numbered<'a> {
    /// The literals of the clause that has this number, if there is one.
    pub fn named(&self, number: u32) -> Option<&'a [Lit]>
        ensures { option_map (λ c. c.now) result ≡ slice_get (clauses_of self.now) number }
    {
        let mut at = number as usize;
        if at < self.cnf.len() {
            return Some(self.cnf[at].items());
        }
        at -= self.cnf.len();
        if at < self.more.len() {
            return Some(self.more[at].items());
        }
        at -= self.more.len();
        if at < self.units.len() {
            return Some(&self.units[at..at + 1]);
        }
        at -= self.units.len();
        if at < self.chains.len() {
            return Some(self.chains[at].result.items());
        }
        None
    }
}
