//! What follows a conflict: the chain, and where the search goes on.

ghost use Rattle.std.specs.Prelude.{◌≡◌, ◌+◌, ◌<◌, ◌^◌, true, length, take, map, slice_index_or, slice_get, IfOk, IfSome, IsSomeAnd, OnOk};
ghost use Rattle.clause_core.specs.Formula.{IsInRange};
ghost use Rattle.clause_core.specs.Literal.{opposite};
ghost use Rattle.clause_derivation.specs.Marking.{HavePlaces};
ghost use Rattle.clause_core.specs.Members.{NoneTwice};
ghost use Rattle.sat_solver.specs.Naming.{IsKnown};
ghost use Rattle.sat_solver.specs.Answers.{AreOpposites, IsAnswer};
ghost use Rattle.sat_solver.specs.Searching.{IsSolver, IsDecided, IsPrefix};

use crate::analyze::{Depth, analyze, last_level};
use crate::engine::Engine;
use crate::entry::Entry;
use crate::order::Order;
use crate::origin::{Known, Origin};
use crate::propagate::settle;
use crate::resolvent::Resolvent;
use crate::trail::Trail;
use crate::verdict::{Lits, Verdict};
use clause_core::{Clause, Cnf, Lit, Memory};
use clause_derivation::Log;
use std::alloc::Global;

/// Lets the variables of entries wait to be decided.
pub fn release(order: &mut Order, entries: &[Entry]) -> Result<(), Memory> {
    for entry in entries {
        order.offer(entry.lit.variable())?;
    }
    Ok(())
}

/// Raises the activities of the variables that took part in a conflict.
fn bump_all(order: &mut Order, lits: &[Lit]) -> Result<(), Memory> {
    for l in lits {
        order.bump(l.variable())?;
    }
    order.decay()
}

/// Whether each of these literals is the opposite of an assumption.
fn are_opposites(marks: &mut Resolvent, assumptions: &[Lit], lits: &[Lit]) -> Result<bool, Memory>
    requires { HavePlaces (length marks.old) assumptions.now }
    ensures length { length marks.new ≡ length marks.old }
    ensures opposites { IfOk result (λ b. b ≡ true → AreOpposites assumptions.now lits.now) }
{
    marks.start(assumptions)?;
    for l in lits {
        if !marks.is_marked(l.negated()) {
            return Ok(false);
        }
    }
    Ok(true)
}

/// The opposites of literals.
fn opposites(alloc: Global, lits: &[Lit]) -> Result<Vec<Lit>, Memory>
    ensures { IfOk result (λ v. v.items ≡ map opposite lits.now) }
{
    let mut out = Vec::new(alloc);
    for l in lits {
        out.push(l.negated())?;
    }
    Ok(out)
}

/// The last level below a level at which one of these literals got its value.
fn level_below(trail: &Trail, lits: &[Lit], level: usize) -> usize {
    let mut last = 0;
    for l in lits {
        if trail.level(*l) < level {
            if trail.level(*l) > last {
                last = trail.level(*l);
            }
        }
    }
    last
}

/// The level to go back to after a clause was learned: the last one at which it forces a literal.
fn level_after(trail: &Trail, lits: &[Lit]) -> usize {
    let last = last_level(trail, lits);
    level_below(trail, lits, last)
}

/// Goes back to a level, if later ones are open. The variables that lose their values wait again.
fn go_back(trail: &mut Trail, order: &mut Order, level: usize) -> Result<(), Memory>
    ensures variables { trail.new.variables ≡ trail.old.variables }
    ensures back { OnOk result (level < length trail.old.starts → trail.new.entries
        ≡ take (slice_index_or trail.old.starts level 0) trail.old.entries) }
    ensures prefix { IsPrefix trail.new.entries trail.old.entries }
{
    if level >= trail.depth() {
        return Ok(());
    }
    let start = trail.start(level);
    let entries = trail.entries();
    if start < entries.len() {
        release(order, &entries[start..])?;
    }
    trail.backjump(level);
    Ok(())
}

/// The core of opposites of assumptions.
fn core(alloc: Global, lits: &[Lit], at: u32) -> Result<Verdict, Memory>
    ensures { IfOk result (λ v. v ≡ Verdict.Core (map opposite lits.now) at) }
{
    let used = opposites(alloc, lits)?;
    Ok(Verdict::Core {
        used: Lits::make(alloc, used),
        at,
    })
}

/// Adds the chain from a conflict to the log, and gives the clause that it derives.
fn explain(
    cnf: &Cnf,
    log: &mut Log,
    engine: &mut Engine,
    conflict: Origin,
    depth: Depth,
) -> Result<Clause, Memory>
    requires solver { IsSolver cnf.now log.old engine.old }
    requires known { IsKnown (length cnf.now.clauses) (length log.old) conflict }
    ensures solver { IsSolver cnf.now log.new engine.new }
    ensures trail { engine.new.trail ≡ engine.old.trail }
    ensures log { IsPrefix log.old log.new }
    ensures added { IfOk result (λ c. (length log.new ≡ length log.old + 1)
        × IsSomeAnd (slice_get log.new (length log.old)) (λ ch. ch.result ≡ c)) }
    ensures small { IfOk result (λ c. length log.old < 2 ^ 32) }
    ensures once { IfOk result (λ c. NoneTwice c) }
    ensures range { IfOk result (λ c. IsInRange cnf.now.variables c) }
{
    let known = Known {
        given: cnf.clauses(),
        chains: log.items(),
    };
    if known.given.len() + known.chains.len() > u32::MAX as usize {
        return Err(Memory);
    }
    let chain = analyze(
        engine.alloc,
        &known,
        &engine.trail,
        &mut engine.marks,
        conflict,
        depth,
    )?;
    bump_all(&mut engine.order, engine.marks.touched())?;
    let learned = chain.result.copy(engine.alloc)?;
    log.push(chain)?;
    Ok(learned)
}

/// Goes on after a clause was learned: back to the last level at which it forces a literal, which
/// is made true there.
fn resume(
    cnf: &Cnf,
    log: &Log,
    engine: &mut Engine,
    assumptions: &[Lit],
    learned: &Clause,
    origin: Origin,
) -> Result<(), Memory>
    requires solver { IsSolver cnf.now log.now engine.old }
    requires decided { IsDecided assumptions.now engine.old.trail.entries }
    requires once { NoneTwice learned.now }
    requires range { IsInRange cnf.now.variables learned.now }
    ensures solver { IsSolver cnf.now log.now engine.new }
    ensures decided { IsDecided assumptions.now engine.new.trail.entries }
{
    let mut level = level_after(&engine.trail, learned.items());
    if engine.restarts.is_due() {
        level = 0;
    }
    go_back(&mut engine.trail, &mut engine.order, level)?;
    engine.watched.attach(learned, origin, &engine.trail)?;
    let known = Known {
        given: cnf.clauses(),
        chains: log.items(),
    };
    let _ = settle(&known, &mut engine.trail, origin)?;
    Ok(())
}

/// Adds the chain from a conflict to the log, and answers the core, if the learned clause is one of
/// opposites of assumptions. Otherwise the search goes on.
pub fn learn(
    cnf: &Cnf,
    log: &mut Log,
    engine: &mut Engine,
    assumptions: &[Lit],
    conflict: Origin,
    depth: Depth,
) -> Result<Option<Verdict>, Memory>
    requires solver { IsSolver cnf.now log.old engine.old }
    requires decided { IsDecided assumptions.now engine.old.trail.entries }
    requires range { IsInRange cnf.now.variables assumptions.now }
    requires known { IsKnown (length cnf.now.clauses) (length log.old) conflict }
    ensures solver { IsSolver cnf.now log.new engine.new }
    ensures decided { IsDecided assumptions.now engine.new.trail.entries }
    ensures log { IsPrefix log.old log.new }
    ensures answer { IfOk result (λ o. IfSome o
        (IsAnswer cnf.now assumptions.now log.new)) }
    // Each conflict takes one of the numbers that are left for chains.
    ensures added { OnOk result (length log.new ≡ length log.old + 1) }
{
    let place = log.items().len();
    let learned = explain(cnf, log, engine, conflict, depth)?;
    let at = place as u32;
    if are_opposites(&mut engine.marks, assumptions, learned.items())? {
        let verdict = core(engine.alloc, learned.items(), at)?;
        if learned.items().is_empty() {
            engine.trail.propagate_anew();
        }
        return Ok(Some(verdict));
    }
    resume(cnf, log, engine, assumptions, &learned, Origin::Learned(at))?;
    Ok(None)
}
