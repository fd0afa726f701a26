//! Chains of resolution steps, and logs of chains.

ghost use Rattle.std.specs.Prelude.{◌≡◌, ◌+◌, ◌<◌, ◌^◌, ◌↔◌, List, [], ◌∷◌, ◌++◌, length, map, take, IsTrue, IfOk, OnOk, OnErr};
ghost use Rattle.clause_derivation.specs.Renumbering.{moved as moved_number, moved_step, moved_chain};

use clause_core::{Clause, Memory};
use std::alloc::Global;
use std::marker::Model;

/// One resolution step on the current clause of a chain.
#[derive(Clone, Copy, Debug, PartialEq, Eq)]
pub struct Resolve {
    /// The number of the clause that the current one is resolved with.
    pub with: u32,
    /// The variable of which the two clauses have opposite literals.
    pub pivot: u32,
}

/// The steps of a chain, in order. Contracts see the list.
#[derive(Debug, Drop)]
pub struct Steps {
    held: Vec<Resolve>,
}

impl Model for Steps {
    ghost use Rattle.std.specs.Prelude.{List};
    ghost use Rattle.clause_derivation.specs.declared.chain.Resolve.{Resolve};

    ghost Value = { List Resolve };

    ghost view = { λ s. s.held.items };
}

impl Steps {
    /// These steps, in this order. It takes no memory.
    pub fn make(_alloc: Global, items: Vec<Resolve>) -> Steps
        ensures { result ≡ items.items }
    {
        Steps { held: items }
    }

    /// The steps, in order.
    pub fn items(&self) -> &[Resolve]
        ensures { result.now ≡ self.now }
    {
        self.held.as_slice()
    }

    /// Makes room for a clause: each number from `at` on rises by one. It takes no memory.
    fn make_room(&mut self, at: u32)
        ensures { self.new ≡ map (moved_step at) self.old }
    {
        move_steps(self.held.as_mut_slice(), at);
    }
}

/// A number after a clause has come in at number `at`.
fn moved(number: u32, at: u32) -> u32
    ensures { result ≡ moved_number at number }
{
    if number < at {
        number
    } else {
        number.saturating_add(1)
    }
}

/// Moves the numbers of all steps.
fn move_steps(steps: &mut [Resolve], at: u32)
    ensures { steps.new ≡ map (moved_step at) steps.old }
{
    for step in steps.iter_mut() {
        step.with = moved(step.with, at);
    }
}

/// Moves the numbers of a chain.
fn move_chain(chain: &mut Chain, at: u32)
    ensures { chain.new ≡ moved_chain at chain.old }
{
    chain.first = moved(chain.first, at);
    chain.steps.make_room(at);
}

/// Moves the numbers of all chains.
fn move_chains(chains: &mut [Chain], at: u32)
    ensures { chains.new ≡ map (moved_chain at) chains.old }
{
    for chain in chains.iter_mut() {
        move_chain(chain, at);
    }
}

/// A chain: it starts from a clause, takes its steps in order, and is to end in its result.
///
/// Clauses are named by numbers: first those that the log is over, then the results of the chains
/// in order. A chain may name only what has an earlier number than its own result.
#[derive(Debug, Drop)]
pub struct Chain {
    /// The number of the clause that the chain starts from.
    pub first: u32,
    /// The steps, in order.
    pub steps: Steps,
    /// The clause that the chain is to derive, as a set of literals.
    pub result: Clause,
}

impl Chain {
    /// Another chain of the same steps and result.
    pub fn copy(&self, alloc: Global) -> Result<Chain, Memory>
        ensures { IfOk result (λ c. c ≡ self.now) }
    {
        let steps = self.steps.items().to_vec(alloc)?;
        let result = self.result.copy(alloc)?;
        Ok(Chain {
            first: self.first,
            steps: Steps::make(alloc, steps),
            result,
        })
    }
}

/// Chains in order. Contracts see the list.
#[derive(Debug, Drop)]
pub struct Log {
    chains: Vec<Chain>,
}

impl Model for Log {
    ghost use Rattle.std.specs.Prelude.{List};
    ghost use Rattle.clause_derivation.specs.declared.chain.Chain.{Chain};

    ghost Value = { List Chain };

    ghost view = { λ g. g.chains.items };
}

impl Log {
    ghost use Rattle.clause_core.specs.declared.literal.Lit.{Lit as Literal};
    ghost use Rattle.clause_derivation.specs.Derivation.{Derives, IsDerivation, EndsEmpty, results};

    /// The log of these chains, in this order. It takes no memory.
    pub fn make(_alloc: Global, items: Vec<Chain>) -> Log
        ensures { result ≡ items.items }
    {
        Log { chains: items }
    }

    /// The chains, in order.
    pub fn items(&self) -> &[Chain]
        ensures { result.now ≡ self.now }
    {
        self.chains.as_slice()
    }

    /// Whether the last chain is the empty clause. A log of no chains has no last one.
    pub fn ends_empty(&self) -> bool
        ensures { IsTrue result ↔ EndsEmpty self.now }
    {
        match self.items().last() {
            Some(last) => last.result.items().is_empty(),
            None => false,
        }
    }

    /// Another log of the same chains.
    pub fn copy(&self, alloc: Global) -> Result<Log, Memory>
        ensures { IfOk result (λ g. g ≡ self.now) }
    {
        let mut chains = Vec::with_capacity(alloc, self.items().len())?;
        for chain in self.items() {
            let c = chain.copy(alloc)?;
            chains.push(c)?;
        }
        Ok(Log { chains })
    }

    /// Keeps the first chains, this many, and takes the others out. It takes no memory.
    pub fn truncate(&mut self, count: usize)
        ensures value { self.new ≡ take count self.old }
        // A log that is a derivation stays one.
        ensures stays { (clauses : List (List Literal)) → IsDerivation clauses self.old
            → IsDerivation clauses self.new }
    {
        self.chains.truncate(count);
    }

    /// Makes room for a clause before the chains: each number from `at` on rises by one. A log that
    /// is a derivation from that many clauses is one from these and any clause after them, as long
    /// as the numbers stay within 32 bits. It takes no memory.
    pub fn make_room(&mut self, at: u32)
        ensures value { self.new ≡ map (moved_chain at) self.old }
        ensures results { results self.new ≡ results self.old }
        ensures stays { (clauses : List (List Literal)) (c : List Literal) → length clauses ≡ at
            → length clauses + length self.old < 2 ^ 32
            → IsDerivation clauses self.old → IsDerivation (clauses ++ c ∷ []) self.new }
    {
        self.move_numbers(at);
    }

    /// Moves the numbers of all chains.
    fn move_numbers(&mut self, at: u32)
        ensures { self.new ≡ map (moved_chain at) self.old }
    {
        move_chains(self.chains.as_mut_slice(), at);
    }

    /// Adds a chain at the end. The chain is not checked.
    pub fn push(&mut self, chain: Chain) -> Result<(), Memory>
        ensures ok { OnOk result (self.new ≡ self.old ++ chain ∷ []) }
        ensures err { OnErr result (self.new ≡ self.old) }
        // A log that is a derivation stays one where the chain derives its result too.
        ensures grows { (clauses : List (List Literal)) → IsDerivation clauses self.old
            → Derives (clauses ++ results self.old) chain → IsDerivation clauses self.new }
    {
        self.chains.push(chain)?;
        Ok(())
    }
}
