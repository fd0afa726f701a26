//! The search from its start to an answer.

ghost use Rattle.std.specs.Prelude.{◌≡◌, ◌≤◌, ◌<◌, ◌^◌, length, List, IfOk, OnOk, IfSome, IfNone, IsTrue};
ghost use Rattle.clause_derivation.specs.declared.chain.Chain.{Chain};
ghost use Rattle.clause_core.specs.Formula.{IsInRange};
ghost use Rattle.clause_core.specs.Truth.{all_true};
ghost use Rattle.sat_solver.specs.Naming.{IsKnown, IsUsable};
ghost use Rattle.sat_solver.specs.Assigned.{Grows};
ghost use Rattle.sat_solver.specs.Answers.{AreConsistent, IsAnswer};
ghost use Rattle.sat_solver.specs.Rounds.{IsRound};
ghost use Rattle.sat_solver.specs.Searching.{AreTrue, Fits, IsSolver, IsDecided, IsPrefix};

use crate::advance::{Stop, advance};
use crate::analyze::Depth;
use crate::engine::{Engine, Restarts};
use crate::learn::{learn, release};
use crate::origin::{Known, Origin};
use crate::propagate::settle;
use crate::trail::Trail;
use crate::verdict::Verdict;
use clause_core::{Assignment, Clause, Cnf, Lit, Memory};
use clause_derivation::Log;

/// The place of the first clause that an assignment does not satisfy.
fn first_false(clauses: &[Clause], a: &Assignment) -> Option<u32>
    requires { length clauses.now ≤ 2 ^ 32 }
    ensures none { IfNone result (IsTrue (all_true a.now clauses.now)) }
    ensures within { IfSome result (λ at. at < length clauses.now) }
{
    for (i, c) in clauses.iter().enumerate() {
        if !c.is_satisfied_by(a) {
            return Some(i as u32);
        }
    }
    None
}

/// Watches a clause of the formula.
fn attach_one(engine: &mut Engine, lits: &[Lit], origin: Origin) -> Result<(), Memory>
    requires fits { Fits engine.old.trail.variables engine.old }
    requires range { IsInRange engine.old.trail.variables lits.now }
    ensures fits { Fits engine.old.trail.variables engine.new }
    ensures trail { engine.new.trail ≡ engine.old.trail }
{
    engine.marks.start(lits)?;
    let lits = engine.marks.take()?;
    let c = Clause::make(engine.alloc, lits);
    engine.watched.attach(&c, origin, &engine.trail)
}

/// Watches the clauses of the formula that are not yet watched.
fn attach_new(cnf: &Cnf, engine: &mut Engine) -> Result<(), Memory>
    requires trail { engine.old.trail.variables ≡ cnf.now.variables }
    requires fits { Fits engine.old.trail.variables engine.old }
    ensures fits { Fits engine.old.trail.variables engine.new }
    ensures trail { engine.new.trail ≡ engine.old.trail }
{
    let clauses = cnf.clauses();
    for at in engine.attached..clauses.len() {
        attach_one(engine, clauses[at].items(), Origin::Given(at as u32))?;
        engine.attached = at + 1;
        engine.trail.propagate_anew();
    }
    Ok(())
}

/// Makes true what the clauses of one literal force, and answers a clause that is false.
fn settle_each(known: &Known, trail: &mut Trail, short: &[Origin]) -> Result<Option<Origin>, Memory>
    requires { IsUsable trail.old.variables known.now.given.now known.now.chains.now }
    ensures variables { trail.new.variables ≡ trail.old.variables }
    ensures grows { Grows (length known.now.given.now) (length known.now.chains.now)
        trail.old.entries trail.new.entries }
    ensures conflict { IfOk result (λ o. IfSome o
        (IsKnown (length known.now.given.now) (length known.now.chains.now))) }
{
    for origin in short {
        if settle(known, trail, *origin)? {
            return Ok(Some(*origin));
        }
    }
    Ok(None)
}

/// Goes back to the facts, and takes the new clauses in. The answer is a clause that the facts make
/// false, if one is found.
fn prepare(
    cnf: &Cnf,
    log: &Log,
    engine: &mut Engine,
    assumptions: &[Lit],
) -> Result<Option<Origin>, Memory>
    requires { IsSolver cnf.now log.now engine.old }
    ensures solver { IsSolver cnf.now log.now engine.new }
    ensures decided { OnOk result (IsDecided assumptions.now engine.new.trail.entries) }
    ensures conflict { IfOk result (λ o. IfSome o
        (IsKnown (length cnf.now.clauses) (length log.now))) }
{
    release(&mut engine.order, engine.trail.entries())?;
    engine.trail.keep_facts();
    engine.restarts = Restarts::make();
    attach_new(cnf, engine)?;
    let known = Known {
        given: cnf.clauses(),
        chains: log.items(),
    };
    let conflict = settle_each(&known, &mut engine.trail, engine.watched.short.as_slice())?;
    Ok(conflict)
}

/// What the search comes to before the next conflict is explained.
pub enum Round {
    /// The answer.
    Ends(Verdict),
    /// A clause that is false, and how far back its analysis resolves.
    Goes(Origin, Depth),
}

/// The answer where every variable has a value, or else a clause that is false.
fn judge(cnf: &Cnf, trail: &Trail, assumptions: &[Lit]) -> Result<Round, Memory>
    requires assumed { AreTrue trail.now.entries assumptions.now }
    requires variables { trail.now.variables ≡ cnf.now.variables }
    ensures { (chains : List Chain)
        → IfOk result (IsRound cnf.now chains assumptions.now) }
{
    let a = trail.assignment()?;
    match first_false(cnf.clauses(), &a) {
        None => Ok(Round::Ends(Verdict::Satisfied(a))),
        Some(at) => Ok(Round::Goes(Origin::Given(at), Depth::FirstUnique)),
    }
}

/// Propagates and decides up to the answer or the next conflict.
fn next_round(
    cnf: &Cnf,
    log: &Log,
    engine: &mut Engine,
    assumptions: &[Lit],
) -> Result<Round, Memory>
    requires solver { IsSolver cnf.now log.now engine.old }
    requires decided { IsDecided assumptions.now engine.old.trail.entries }
    requires range { IsInRange cnf.now.variables assumptions.now }
    requires consistent { AreConsistent assumptions.now }
    ensures solver { IsSolver cnf.now log.now engine.new }
    ensures decided { IsDecided assumptions.now engine.new.trail.entries }
    ensures round { IfOk result (IsRound cnf.now log.now assumptions.now) }
{
    let known = Known {
        given: cnf.clauses(),
        chains: log.items(),
    };
    match advance(
        &known,
        &mut engine.trail,
        &mut engine.watched,
        &mut engine.order,
        assumptions,
    )? {
        Stop::Conflict(origin) => Ok(Round::Goes(origin, Depth::FirstUnique)),
        Stop::Refused(origin) => Ok(Round::Goes(origin, Depth::Whole)),
        Stop::Full => {
            let round = judge(cnf, &engine.trail, assumptions)?;
            Ok(round)
        }
    }
}

/// The answer under these assumptions. Each turn but the last adds a chain to the log, so there are
/// no more turns than numbers.
pub fn run(
    cnf: &Cnf,
    log: &mut Log,
    engine: &mut Engine,
    assumptions: &[Lit],
) -> Result<Verdict, Memory>
    requires solver { IsSolver cnf.now log.old engine.old }
    requires range { IsInRange cnf.now.variables assumptions.now }
    requires consistent { AreConsistent assumptions.now }
    ensures solver { IsSolver cnf.now log.new engine.new }
    ensures log { IsPrefix log.old log.new }
    ensures answer { IfOk result (IsAnswer cnf.now assumptions.now log.new) }
{
    if let Some(origin) = prepare(cnf, log, engine, assumptions)? {
        if let Some(verdict) = learn(cnf, log, engine, assumptions, origin, Depth::FirstUnique)? {
            return Ok(verdict);
        }
    }
    for _ in 0..=u32::MAX {
        match next_round(cnf, log, engine, assumptions)? {
            Round::Ends(verdict) => return Ok(verdict),
            Round::Goes(origin, depth) => {
                if let Some(verdict) = learn(cnf, log, engine, assumptions, origin, depth)? {
                    return Ok(verdict);
                }
            }
        }
    }
    Err(Memory)
}
