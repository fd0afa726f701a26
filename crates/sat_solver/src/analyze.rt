//! Conflict analysis: the chain of resolution steps from a conflict to the clause that is learned.

ghost use Rattle.std.specs.Prelude.{◌≡◌, ◌/◌, ℕ, length, OnOk, IfOk};
ghost use Rattle.clause_derivation.specs.Derivation.{Derives};
ghost use Rattle.clause_derivation.specs.Marking.{HavePlaces};
ghost use Rattle.clause_core.specs.Members.{NoneTwice};
ghost use Rattle.sat_solver.specs.Naming.{numbered, number_of, IsKnown, IsUsable};
ghost use Rattle.sat_solver.specs.Resolving.{Reaches};

use crate::entry::Entry;
use crate::origin::{Known, Origin};
use crate::resolvent::Resolvent;
use crate::trail::Trail;
use clause_core::{Clause, Lit, Memory};
use clause_derivation::{Chain, Resolve, Steps};
use std::alloc::Global;

/// How far back conflict analysis resolves.
#[derive(Clone, Copy, Debug, PartialEq, Eq)]
pub enum Depth {
    /// To the first unique implication point: the only literal left of the last level.
    FirstUnique,
    /// To literals without a reason.
    Whole,
}

/// How many of these literals got their values at a level.
fn count_at(trail: &Trail, lits: &[Lit], level: usize) -> usize {
    let mut count = 0usize;
    for l in lits {
        if trail.level(*l) == level {
            count = count.saturating_add(1);
        }
    }
    count
}

/// The last level at which one of these literals got its value.
pub fn last_level(trail: &Trail, lits: &[Lit]) -> usize {
    let mut last = 0;
    for l in lits {
        if trail.level(*l) > last {
            last = trail.level(*l);
        }
    }
    last
}

/// Resolves the marked clause with the reason of a true literal, where that is a step, and adds the
/// step.
fn step(
    known: &Known,
    marks: &mut Resolvent,
    steps: &mut Vec<Resolve>,
    entry: Entry,
) -> Result<bool, Memory>
    requires { IsUsable (length marks.old / 2) known.now.given.now known.now.chains.now }
    ensures length { length marks.new ≡ length marks.old }
    ensures reaches { OnOk result ((first : ℕ)
        → Reaches (numbered known.now.given.now known.now.chains.now) first steps.old.items marks.old
        → Reaches (numbered known.now.given.now known.now.chains.now) first steps.new.items marks.new) }
{
    match entry.reason {
        None => Ok(false),
        Some(origin) => match known.literals(origin) {
            None => Ok(false),
            Some(reason) => {
                if marks.resolve(entry.lit, reason)? {
                    steps.push(Resolve {
                        with: known.number(origin),
                        pivot: entry.lit.variable(),
                    })?;
                    return Ok(true);
                }
                Ok(false)
            }
        },
    }
}

/// Walks down the trail from its end, and resolves the marked clause with the reasons of its false
/// literals.
fn walk(
    known: &Known,
    trail: &Trail,
    marks: &mut Resolvent,
    steps: &mut Vec<Resolve>,
    depth: Depth,
) -> Result<(), Memory>
    requires { IsUsable (length marks.old / 2) known.now.given.now known.now.chains.now }
    ensures length { length marks.new ≡ length marks.old }
    ensures reaches { OnOk result ((first : ℕ)
        → Reaches (numbered known.now.given.now known.now.chains.now) first steps.old.items marks.old
        → Reaches (numbered known.now.given.now known.now.chains.now) first steps.new.items marks.new) }
{
    let level = last_level(trail, marks.touched());
    let mut open = count_at(trail, marks.touched(), level);
    let entries = trail.entries();
    for i in (0..entries.len()).rev() {
        let entry = entries[i];
        if marks.is_marked(entry.lit.negated()) {
            if ends(depth, level, open) {
                return Ok(());
            }
            let before = marks.touched().len();
            if step(known, marks, steps, entry)? {
                let more = count_after(trail, marks.touched(), before, level);
                open = left(trail, entry.lit, level, open).saturating_add(more);
            }
        }
    }
    Ok(())
}

/// Whether the walk is at its end.
fn ends(depth: Depth, level: usize, open: usize) -> bool {
    match depth {
        Depth::FirstUnique => (level > 0) & (open <= 1),
        Depth::Whole => false,
    }
}

/// How many of the literals from an index on got their values at a level.
fn count_after(trail: &Trail, lits: &[Lit], from: usize, level: usize) -> usize {
    if from < lits.len() {
        count_at(trail, &lits[from..], level)
    } else {
        0
    }
}

/// How many literals of a level are left once this one is resolved away.
fn left(trail: &Trail, l: Lit, level: usize, open: usize) -> usize {
    if trail.level(l) == level {
        open.saturating_sub(1)
    } else {
        open
    }
}

/// The chain from a clause that is false to the clause that is learned.
pub fn analyze(
    alloc: Global,
    known: &Known,
    trail: &Trail,
    marks: &mut Resolvent,
    conflict: Origin,
    depth: Depth,
) -> Result<Chain, Memory>
    requires usable { IsUsable (length marks.old / 2) known.now.given.now known.now.chains.now }
    requires known { IsKnown (length known.now.given.now) (length known.now.chains.now) conflict }
    ensures length { length marks.new ≡ length marks.old }
    ensures derives { IfOk result (λ ch.
        Derives (numbered known.now.given.now known.now.chains.now) ch) }
    ensures once { IfOk result (λ ch. NoneTwice ch.result) }
    ensures range { IfOk result (λ ch. HavePlaces (length marks.old) ch.result) }
{
    let lits = known.literals(conflict).unwrap();
    marks.start(lits)?;
    let mut steps = Vec::new(alloc);
    walk(known, trail, marks, &mut steps, depth)?;
    let learned = marks.take()?;
    Ok(Chain {
        first: known.number(conflict),
        steps: Steps::make(alloc, steps),
        result: Clause::make(alloc, learned),
    })
}
