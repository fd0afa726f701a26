//! The check of chains: the steps of each are taken on marks, and the marks are compared with its
//! result.

ghost use Rattle.std.specs.Prelude.{◌≡◌, ◌≤◌, ◌^◌, ◌↔◌, List, Some, IsTrue, All, length};
ghost use Rattle.clause_core.specs.declared.literal.Lit.{Lit as Literal};
ghost use Rattle.clause_derivation.specs.Derivation.{next, chain_end, Derives, IsDerivation};
ghost use Rattle.clause_derivation.specs.Marking.{AreMarks, IsClear, AreWithin, HavePlaces, Stepped, Ended, Unmarks};
ghost use Rattle.clause_derivation.specs.Numbering.{base_of, clauses_of, named, touched};

use crate::chain::{Chain, Resolve};
use crate::marking::{all_marked, mark_all, resolve, unmark_all};
use crate::numbering::Numbered;

/// Takes one step of a chain. Where it is none, the answer is `false` and nothing changes.
fn take_step(numbered: &Numbered, step: Resolve, marked: &mut [bool]) -> bool
    requires places { All (HavePlaces (length marked.old)) (clauses_of numbered.now) }
    requires codes { length marked.old ≤ 2 ^ 32 }
    ensures { (c : List Literal) → AreMarks marked.old c
        → Stepped marked.old marked.new (next (clauses_of numbered.now) (Some c) step) result }
{
    match numbered.named(step.with) {
        Some(with) => resolve(marked, with, step.pivot),
        None => false,
    }
}

/// Takes the steps of a chain, from nothing marked. Where its clause ends in none, the answer is
/// `false`, and only literals of clauses that it names are marked.
fn take_steps(numbered: &Numbered, chain: &Chain, marked: &mut [bool]) -> bool
    requires clear { IsClear marked.old }
    requires places { All (HavePlaces (length marked.old)) (clauses_of numbered.now) }
    requires codes { length marked.old ≤ 2 ^ 32 }
    ensures ended { Ended marked.new (chain_end (clauses_of numbered.now) chain.now) result }
    ensures within { AreWithin marked.new (touched (clauses_of numbered.now) chain.now) }
{
    match numbered.named(chain.first) {
        Some(first) => mark_all(marked, first),
        None => return false,
    }
    for step in chain.steps.items() {
        if !take_step(numbered, *step, marked) {
            return false;
        }
    }
    true
}

/// Takes the marks of the clause that has this number away, and answers whether none had one.
fn unmark_named(numbered: &Numbered, number: u32, marked: &mut [bool]) -> bool
    ensures { Unmarks marked.old marked.new (named (clauses_of numbered.now) number) result }
{
    match numbered.named(number) {
        Some(lits) => unmark_all(marked, lits),
        None => true,
    }
}

/// Takes the marks of all clauses that a chain names away, and answers whether none had one.
fn unmark_touched(numbered: &Numbered, chain: &Chain, marked: &mut [bool]) -> bool
    ensures { Unmarks marked.old marked.new (touched (clauses_of numbered.now) chain.now) result }
{
    let mut clean = unmark_named(numbered, chain.first, marked);
    for step in chain.steps.items() {
        clean &= unmark_named(numbered, step.with, marked);
    }
    clean
}

/// Whether a chain derives its result. Nothing is marked before and after.
fn derives(numbered: &Numbered, chain: &Chain, marked: &mut [bool]) -> bool
    requires clear { IsClear marked.old }
    requires places { All (HavePlaces (length marked.old)) (clauses_of numbered.now) }
    requires codes { length marked.old ≤ 2 ^ 32 }
    ensures exact { IsTrue result ↔ Derives (clauses_of numbered.now) chain.now }
    ensures range { IsTrue result → HavePlaces (length marked.old) chain.now.result }
    ensures clear { IsClear marked.new }
{
    let ended = take_steps(numbered, chain, marked);
    let covered = all_marked(marked, chain.result.items());
    unmark_all(marked, chain.result.items());
    let clean = unmark_touched(numbered, chain, marked);
    ended & covered & clean
}

/// Whether each chain derives its result from what has earlier numbers. Nothing is marked before
/// and after.
pub fn check_chains(base: &Numbered, chains: &[Chain], marked: &mut [bool]) -> bool
    requires clear { IsClear marked.old }
    requires places { All (HavePlaces (length marked.old)) (base_of base.now) }
    requires codes { length marked.old ≤ 2 ^ 32 }
    ensures exact { IsTrue result ↔ IsDerivation (base_of base.now) chains.now }
    ensures clear { IsClear marked.new }
{
    for (i, chain) in chains.iter().enumerate() {
        let numbered = Numbered {
            cnf: base.cnf,
            more: base.more,
            units: base.units,
            chains: &chains[..i],
        };
        if !derives(&numbered, chain, marked) {
            return false;
        }
    }
    true
}
