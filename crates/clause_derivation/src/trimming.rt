//! Logs without the chains that their last one does not stand on.

ghost use Rattle.std.specs.Prelude.{◌≡◌, ◌-◌, ◌<◌, ◌≤◌, ◌++◌, ◌∷◌, [], ℕ, false, true, length, map, List, IfOk, OnOk, All, slice_index_or, if◌then◌else◌};
ghost use Rattle.clause_core.specs.declared.literal.Lit.{Lit as Literal};
ghost use Rattle.clause_derivation.specs.Derivation.{IsDerivation, last_result};
ghost use Rattle.clause_derivation.specs.Trimming.{AreClosed, IsWanted, lowered as lowered_number, lowered_chain, lowered_step, numbers};

use crate::chain::{Chain, Log, Resolve, Steps};
use clause_core::Memory;
use std::alloc::Global;

/// Notes that the chain of a number is needed, where it is one of the first `below`.
fn want(needed: &mut [bool], base: usize, below: usize, number: u32)
    requires { below ≤ length needed.old }
    ensures wanted { IsWanted base below needed.new number }
    ensures kept { (k : ℕ) → slice_index_or needed.old k false ≡ true
        → slice_index_or needed.new k false ≡ true }
    ensures later { (k : ℕ) → below ≤ k
        → slice_index_or needed.new k false ≡ slice_index_or needed.old k false }
{
    let at = number as usize;
    if at < base {
        return;
    }
    if at - base < below {
        needed[at - base] = true;
    }
}

/// Notes that the chains which a chain names before itself are needed.
fn want_named(needed: &mut [bool], base: usize, below: usize, chain: &Chain)
    requires { below ≤ length needed.old }
    ensures wanted { All (IsWanted base below needed.new) (numbers chain.now) }
    ensures kept { (k : ℕ) → slice_index_or needed.old k false ≡ true
        → slice_index_or needed.new k false ≡ true }
    ensures later { (k : ℕ) → below ≤ k
        → slice_index_or needed.new k false ≡ slice_index_or needed.old k false }
{
    want(needed, base, below, chain.first);
    for step in chain.steps.items() {
        want(needed, base, below, step.with);
    }
}

/// Which chains the last one stands on: itself, and each that one of them names.
fn find_needed(alloc: Global, base: usize, chains: &[Chain]) -> Result<Vec<bool>, Memory>
    ensures length { IfOk result (λ v. length v.items ≡ length chains.now) }
    ensures closed { IfOk result (λ v. AreClosed base 0 chains.now v.items) }
    ensures last { IfOk result (λ v. 0 < length chains.now
        → slice_index_or v.items (length chains.now - 1) false ≡ true) }
{
    let count = chains.len();
    let mut needed = vec![in alloc; false; count]?;
    if count > 0 {
        needed[count - 1] = true;
    }
    for done in 0..count {
        let at = count - 1 - done;
        if needed[at] {
            want_named(needed.as_mut_slice(), base, at, &chains[at]);
        }
    }
    Ok(needed)
}

/// A number after chains were taken out, where `dropped` says for each chain how many before it were.
fn lowered(number: u32, base: usize, dropped: &[usize]) -> u32
    ensures { result ≡ lowered_number base dropped.now number }
{
    let at = number as usize;
    if at < base {
        return number;
    }
    if at - base >= dropped.len() {
        return number;
    }
    at.saturating_sub(dropped[at - base]) as u32
}

/// The steps with lowered numbers.
fn lowered_steps(
    alloc: Global,
    steps: &[Resolve],
    base: usize,
    dropped: &[usize],
) -> Result<Steps, Memory>
    ensures { IfOk result (λ v. v ≡ map (lowered_step base dropped.now) steps.now) }
{
    let mut out = Vec::with_capacity(alloc, steps.len())?;
    for step in steps {
        out.push(Resolve {
            with: lowered(step.with, base, dropped),
            pivot: step.pivot,
        })?;
    }
    Ok(Steps::make(alloc, out))
}

/// The chain with lowered numbers.
fn lowered_copy(
    alloc: Global,
    chain: &Chain,
    base: usize,
    dropped: &[usize],
) -> Result<Chain, Memory>
    ensures { IfOk result (λ c. c ≡ lowered_chain base dropped.now chain.now) }
{
    let steps = lowered_steps(alloc, chain.steps.items(), base, dropped)?;
    let result = chain.result.copy(alloc)?;
    Ok(Chain {
        first: lowered(chain.first, base, dropped),
        steps,
        result,
    })
}

/// Adds the lowered chain to those that are kept, where it is needed.
fn keep_one(
    alloc: Global,
    out: &mut Vec<Chain>,
    chain: &Chain,
    base: usize,
    dropped: &[usize],
    is_needed: bool,
) -> Result<(), Memory>
    ensures { OnOk result (out.new.items ≡ (if is_needed
        then out.old.items ++ lowered_chain base dropped.now chain.now ∷ [] else out.old.items)) }
{
    if !is_needed {
        return Ok(());
    }
    let c = lowered_copy(alloc, chain, base, dropped)?;
    out.push(c)?;
    Ok(())
}

/// The needed chains, in order, with the numbers that they have then.
fn keep_needed(
    alloc: Global,
    base: usize,
    chains: &[Chain],
    needed: &[bool],
) -> Result<Vec<Chain>, Memory>
    requires length { length needed.now ≡ length chains.now }
    requires closed { AreClosed base 0 chains.now needed.now }
    ensures fewer { IfOk result (λ v. length v.items ≤ length chains.now) }
    ensures derivation { IfOk result (λ v. (clauses : List (List Literal)) → length clauses ≡ base
        → IsDerivation clauses chains.now → IsDerivation clauses v.items) }
    ensures last { IfOk result (λ v. (0 < length chains.now
        → slice_index_or needed.now (length chains.now - 1) false ≡ true)
        → last_result v.items ≡ last_result chains.now) }
{
    let mut dropped = Vec::with_capacity(alloc, chains.len())?;
    let mut out = Vec::new(alloc);
    for (i, chain) in chains.iter().enumerate() {
        dropped.push(i - out.len())?;
        keep_one(alloc, &mut out, chain, base, dropped.as_slice(), needed[i])?;
    }
    Ok(out)
}

/// The log over this many clauses without the chains that the last one does not stand on: what it
/// names, and what those name, in order, with the numbers that they have then. A log that is a
/// derivation from that many clauses gives one from the same clauses, and the last result stays. It
/// takes time linear in the length of the log.
pub fn trim(alloc: Global, clauses: usize, log: &Log) -> Result<Log, Memory>
    ensures shorter { IfOk result (λ g. length g ≤ length log.now) }
    ensures derivation { IfOk result (λ g. (given : List (List Literal)) → length given ≡ clauses
        → IsDerivation given log.now → IsDerivation given g) }
    ensures last { IfOk result (λ g. last_result g ≡ last_result log.now) }
{
    let chains = log.items();
    let needed = find_needed(alloc, clauses, chains)?;
    let kept = keep_needed(alloc, clauses, chains, needed.as_slice())?;
    Ok(Log::make(alloc, kept))
}
