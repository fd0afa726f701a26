//! Propagation and decisions, up to a conflict or until every variable has a value.

ghost use Rattle.std.specs.Prelude.{◌≡◌, ◌<◌, ◌≤◌, ◌*◌, ◌+◌, ◌++◌, ◌∷◌, [], true, false, length, take, slice_index_or, ℕ, List, IfOk, IfSome, OnOk, OnErr, All};
ghost use Rattle.clause_core.specs.declared.literal.Lit.{Lit as Literal};
ghost use Rattle.clause_core.specs.Literal.{variable_of};
ghost use Rattle.clause_core.specs.Members.{has};
ghost use Rattle.clause_core.specs.Formula.{IsInRange};
ghost use Rattle.sat_solver.specs.Answers.{AreConsistent};
ghost use Rattle.sat_solver.specs.Naming.{IsKnown, IsUsable};
ghost use Rattle.sat_solver.specs.Assigned.{literals_of, IsReasoned};
ghost use Rattle.sat_solver.specs.Searching.{AreTrue, IsDecided, IsChoice, IsStop, MayDecide};

use crate::order::{Order, decide};
use crate::origin::{Known, Origin};
use crate::propagate::propagate;
use crate::trail::Trail;
use crate::watched::Watched;
use clause_core::{Lit, Memory};

/// How propagation and decisions came to their end.
pub enum Stop {
    /// All literals of this clause are false.
    Conflict(Origin),
    /// An assumption is false. This is the reason of its opposite.
    Refused(Origin),
    /// All assumptions are true, and no variable is left to be decided.
    Full,
}

/// What comes after propagation without a conflict.
pub enum Choice {
    /// This literal has no value, and is decided.
    Decide(Lit),
    /// An assumption is false. This is the reason of its opposite.
    Refuse(Origin),
    /// All assumptions are true, and no variable is left to be decided.
    Done,
}

/// What an assumption that is not true leads to.
fn assume(trail: &Trail, assumptions: &[Lit], l: Lit) -> Choice
    requires range { variable_of l < trail.now.variables }
    requires assumed { has assumptions.now l ≡ true }
    requires decided { IsDecided assumptions.now trail.now.entries }
    requires consistent { AreConsistent assumptions.now }
    requires not_true { has (literals_of trail.now.entries) l ≡ false }
    ensures { IsChoice trail.now.variables trail.now.entries assumptions.now result }
{
    if trail.is_false(l) {
        return match trail.reason(l.negated()) {
            Some(origin) => Choice::Refuse(origin),
            None => unreachable!(),
        };
    }
    Choice::Decide(l)
}

/// The first assumption that is not true, from an index on.
fn first_open(trail: &Trail, assumptions: &[Lit], from: usize) -> usize
    requires before { AreTrue trail.now.entries (take from assumptions.now) }
    requires within { from ≤ length assumptions.now }
    ensures before { AreTrue trail.now.entries (take result assumptions.now) }
    ensures within { result ≤ length assumptions.now }
    ensures not_true { result < length assumptions.now → (d : Literal)
        → has (literals_of trail.now.entries) (slice_index_or assumptions.now result d) ≡ false }
{
    for i in from..assumptions.len() {
        if !trail.is_true(assumptions[i]) {
            return i;
        }
    }
    assumptions.len()
}

/// What comes next: the assumption at an index, before which all are true, or the next literal by
/// activity.
fn choose(trail: &Trail, order: &mut Order, assumptions: &[Lit], at: usize) -> Choice
    requires range { IsInRange trail.now.variables assumptions.now }
    requires decided { IsDecided assumptions.now trail.now.entries }
    requires consistent { AreConsistent assumptions.now }
    requires before { AreTrue trail.now.entries (take at assumptions.now) }
    requires not_true { at < length assumptions.now → (d : Literal)
        → has (literals_of trail.now.entries) (slice_index_or assumptions.now at d) ≡ false }
    ensures { IsChoice trail.now.variables trail.now.entries assumptions.now result }
{
    if at < assumptions.len() {
        return assume(trail, assumptions, assumptions[at]);
    }
    match decide(order, trail) {
        Some(l) => Choice::Decide(l),
        None => Choice::Done,
    }
}

/// Makes a literal true by decision, on a level of its own.
fn make_true(trail: &mut Trail, l: Lit, assumptions: &[Lit]) -> Result<(), Memory>
    requires may { MayDecide trail.old.variables trail.old.entries assumptions.now l }
    requires decided { IsDecided assumptions.now trail.old.entries }
    ensures variables { trail.new.variables ≡ trail.old.variables }
    ensures ok { OnOk result (trail.new.entries
        ≡ trail.old.entries ++ record { lit = l; reason = None } ∷ []) }
    ensures err { OnErr result (trail.new.entries ≡ trail.old.entries) }
    ensures decided { IsDecided assumptions.now trail.new.entries }
    ensures reasons { (n k : ℕ) → All (IsReasoned n k) trail.old.entries
        → All (IsReasoned n k) trail.new.entries }
    ensures kept { (lits : List Literal) → AreTrue trail.old.entries lits
        → AreTrue trail.new.entries lits }
    ensures longer { OnOk result (length trail.new.entries ≡ length trail.old.entries + 1) }
    ensures bound { OnOk result (length trail.new.entries ≤ 2 * trail.new.variables) }
{
    trail.open_level()?;
    trail.enqueue(l, None)?;
    Ok(())
}

/// Propagates, and answers the clause that is false then, if one is found.
fn follow(
    known: &Known,
    trail: &mut Trail,
    watched: &mut Watched,
    assumptions: &[Lit],
) -> Result<Option<Origin>, Memory>
    requires usable { IsUsable trail.old.variables known.now.given.now known.now.chains.now }
    requires fits { watched.old.arena.variables ≡ trail.old.variables }
    requires reasons { All (IsReasoned (length known.now.given.now) (length known.now.chains.now))
        trail.old.entries }
    requires decided { IsDecided assumptions.now trail.old.entries }
    ensures variables { trail.new.variables ≡ trail.old.variables }
    ensures arena { watched.new.arena.variables ≡ watched.old.arena.variables }
    ensures reasons { All (IsReasoned (length known.now.given.now) (length known.now.chains.now))
        trail.new.entries }
    ensures decided { IsDecided assumptions.now trail.new.entries }
    ensures kept { (lits : List Literal) → AreTrue trail.old.entries lits
        → AreTrue trail.new.entries lits }
    ensures longer { length trail.old.entries ≤ length trail.new.entries }
    ensures conflict { IfOk result (λ o. IfSome o
        (IsKnown (length known.now.given.now) (length known.now.chains.now))) }
{
    propagate(known, watched, trail)
}

/// Propagates and decides up to a conflict, or until every variable has a value.
pub fn advance(
    known: &Known,
    trail: &mut Trail,
    watched: &mut Watched,
    order: &mut Order,
    assumptions: &[Lit],
) -> Result<Stop, Memory>
    requires usable { IsUsable trail.old.variables known.now.given.now known.now.chains.now }
    requires fits { watched.old.arena.variables ≡ trail.old.variables }
    requires reasons { All (IsReasoned (length known.now.given.now) (length known.now.chains.now))
        trail.old.entries }
    requires decided { IsDecided assumptions.now trail.old.entries }
    requires range { IsInRange trail.old.variables assumptions.now }
    requires consistent { AreConsistent assumptions.now }
    ensures variables { trail.new.variables ≡ trail.old.variables }
    ensures arena { watched.new.arena.variables ≡ watched.old.arena.variables }
    ensures reasons { All (IsReasoned (length known.now.given.now) (length known.now.chains.now))
        trail.new.entries }
    ensures decided { IsDecided assumptions.now trail.new.entries }
    ensures stop { IfOk result (IsStop (length known.now.given.now) (length known.now.chains.now)
        trail.new.entries assumptions.now) }
{
    let mut assumed = 0usize;
    loop {
        if let Some(origin) = follow(known, trail, watched, assumptions)? {
            return Ok(Stop::Conflict(origin));
        }
        assumed = first_open(trail, assumptions, assumed);
        match choose(trail, order, assumptions, assumed) {
            Choice::Refuse(origin) => return Ok(Stop::Refused(origin)),
            Choice::Done => return Ok(Stop::Full),
            Choice::Decide(l) => make_true(trail, l, assumptions)?,
        }
    }
}
