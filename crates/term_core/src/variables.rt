//! How many variables a term is for, and how deep its quantifiers nest. Nothing here takes memory.

#![tactic(auto, using(crate::proofs::NestingLemmas::nested))]

ghost use Rattle.std.specs.Prelude.{◌≡◌, ◌↔◌, ◌≤◌, nat_le, IsTrue};
ghost use Rattle.term_core.specs.Variables.{nesting, free_variables};
ghost use Rattle.term_core.specs.Lists.{list_nesting, list_variables};

use crate::term::Term;

impl Term {
    /// How many variables a frame has to bind for the term. It takes no memory.
    #[cycle(free_variables)]
    pub fn free_variables(&self) -> u64
        ensures { result ≡ free_variables self.now }
    {
        match self {
            Term::Known(_) => 0,
            Term::Var(number) => u64::from(*number) + 1,
            Term::Read { at, .. } => most_variables(at.as_slice()),
            Term::Not(body) => body.get().free_variables(),
            Term::And(parts) | Term::Or(parts) => most_variables(parts.as_slice()),
            Term::If { test, yes, no } => {
                let choice = yes.get().free_variables().max(no.get().free_variables());
                test.get().free_variables().max(choice)
            }
            Term::Same { left, right } | Term::Less { left, right } => {
                left.get()
                    .free_variables()
                    .max(right.get().free_variables())
            }
            Term::Arith { left, right, .. } => {
                left.get()
                    .free_variables()
                    .max(right.get().free_variables())
            }
            Term::Quantified { body, .. } => body.get().free_variables().saturating_sub(1),
        }
    }

    /// Whether the quantifiers of the term nest at most this deep, so that a frame with as much
    /// spare room serves for its value. It takes no memory.
    pub fn nests_within(&self, depth: usize) -> bool
        ensures { IsTrue result ↔ (nesting self.now ≤ depth) }
    {
        self.nests(depth)
    }

    #[cycle(nests)]
    fn nests(&self, depth: usize) -> bool
        ensures { result ≡ nat_le (nesting self.now) depth }
    {
        match self {
            Term::Known(_) | Term::Var(_) => true,
            Term::Read { at, .. } => all_nest(at.as_slice(), depth),
            Term::Not(body) => body.get().nests(depth),
            Term::And(parts) | Term::Or(parts) => all_nest(parts.as_slice(), depth),
            Term::If { test, yes, no } => {
                test.get().nests(depth) && yes.get().nests(depth) && no.get().nests(depth)
            }
            Term::Same { left, right } | Term::Less { left, right } => {
                left.get().nests(depth) && right.get().nests(depth)
            }
            Term::Arith { left, right, .. } => {
                left.get().nests(depth) && right.get().nests(depth)
            }
            Term::Quantified { body, .. } => depth > 0 && body.get().nests(depth - 1),
        }
    }
}

#[cycle(free_variables)]
fn most_variables(all: &[Term]) -> u64
    ensures { result ≡ list_variables all.now }
{
    let mut most = 0;
    for one in all {
        most = one.free_variables().max(most);
    }
    most
}

#[cycle(nests)]
fn all_nest(all: &[Term], depth: usize) -> bool
    ensures { result ≡ nat_le (list_nesting all.now) depth }
{
    for one in all {
        if !one.nests(depth) {
            return false;
        }
    }
    true
}
