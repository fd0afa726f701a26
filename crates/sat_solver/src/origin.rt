//! Where a clause that serves as a reason or a conflict is kept, and its number in chains.

ghost use Rattle.std.specs.Prelude.{◌≡◌, ◌+◌, ◌≤◌, ◌<◌, ◌^◌, length, IfSome, IsSome, slice_get, Some};
ghost use Rattle.clause_derivation.specs.declared.chain.Chain.{Chain};
ghost use Rattle.sat_solver.specs.Naming.{numbered, number_of, IsKnown};

use clause_core::{Clause, Lit};
use clause_derivation::Chain;

/// A clause by the place where it is kept, which stays when the formula grows.
#[derive(Clone, Copy, Debug, PartialEq, Eq)]
pub enum Origin {
    /// The clause of the formula at this place.
    Given(u32),
    /// The result of the chain at this place of the log.
    Learned(u32),
}

/// All clauses that a chain may name: those of a formula, and the results of the chains so far.
#[derive(Clone, Copy)]
pub struct Known<'a> {
    pub given: &'a [Clause],
    pub chains: &'a [Chain],
}

impl<'a> Known<'a> {
    /// The literals of a clause, if there is one at that place.
    pub fn literals(&self, origin: Origin) -> Option<&'a [Lit]>
        ensures known { IsKnown (length self.now.given.now) (length self.now.chains.now) origin
            → IsSome result }
        ensures named { IfSome result (λ c.
            slice_get (numbered self.now.given.now self.now.chains.now)
            (number_of (length self.now.given.now) origin) ≡ Some c.now) }
        ensures found { IsSome result
            → IsKnown (length self.now.given.now) (length self.now.chains.now) origin }
    {
        match origin {
            Origin::Given(at) => {
                let at = at as usize;
                if at < self.given.len() {
                    return Some(self.given[at].items());
                }
                None
            }
            Origin::Learned(at) => {
                let at = at as usize;
                if at < self.chains.len() {
                    return Some(self.chains[at].result.items());
                }
                None
            }
        }
    }

    /// The number under which a chain names a clause that is there.
    pub fn number(&self, origin: Origin) -> u32
        requires known { IsKnown (length self.now.given.now) (length self.now.chains.now) origin }
        requires count { length self.now.given.now + length self.now.chains.now ≤ 2 ^ 32 }
        ensures { result ≡ number_of (length self.now.given.now) origin }
    {
        match origin {
            Origin::Given(at) => at,
            Origin::Learned(at) => (self.given.len() + at as usize) as u32,
        }
    }
}
