//! The clauses that are watched, and the origin of each.

ghost use Rattle.std.specs.Prelude.{◌≡◌, ◌<◌, ◌≤◌, length, IfOk, IfSome, OnOk};
ghost use Rattle.clause_core.specs.Formula.{IsInRange};
ghost use Rattle.sat_arena.specs.Live.{IsLive, literals};
ghost use Rattle.clause_core.specs.Members.{NoneTwice};

use crate::origin::Origin;
use crate::trail::Trail;
use clause_core::{Clause, Lit, Memory};
use sat_arena::{Arena, ClauseId};
use std::alloc::Global;

/// How many learned clauses there are before the older half is forgotten, and how many more there
/// are each next time.
const FIRST_MOST: usize = 1000;

const MORE: usize = 100;

/// The watched clauses, each with its origin, and the origins of those that are too short to be
/// watched.
#[derive(Drop)]
pub struct Watched {
    pub arena: Arena,
    /// By the places of the ids.
    pub origins: Vec<Origin>,
    /// The clauses of fewer than two literals.
    pub short: Vec<Origin>,
    /// The learned clauses that may be forgotten, the oldest first.
    learned: Vec<ClauseId>,
    /// How many of these there are before the older half is forgotten.
    most: usize,
}

impl Watched {
    /// No clauses, over this many variables.
    pub fn make(alloc: Global, variables: u32) -> Result<Watched, Memory>
        ensures { IfOk result (λ w. w.arena.variables ≡ variables) }
    {
        let arena = Arena::make(alloc, variables)?;
        Ok(Watched {
            arena,
            origins: Vec::new(alloc),
            short: Vec::new(alloc),
            learned: Vec::new(alloc),
            most: FIRST_MOST,
        })
    }

    /// The origin of a watched clause, if it is known.
    pub fn origin(&self, id: ClauseId) -> Option<Origin> {
        let at = id.place as usize;
        if at < self.origins.len() {
            return Some(self.origins[at]);
        }
        None
    }

    /// Keeps the origin of a clause.
    fn name(&mut self, id: ClauseId, origin: Origin) -> Result<(), Memory>
        ensures { self.new.arena ≡ self.old.arena }
    {
        let at = id.place as usize;
        for _ in self.origins.len()..at + 1 {
            self.origins.push(origin)?;
        }
        if at < self.origins.len() {
            self.origins[at] = origin;
        }
        Ok(())
    }

    /// Adds a clause, watched at two literals that got their values last.
    pub fn attach(&mut self, c: &Clause, origin: Origin, trail: &Trail) -> Result<(), Memory>
        requires once { NoneTwice c.now }
        requires range { IsInRange self.old.arena.variables c.now }
        ensures { self.new.arena.variables ≡ self.old.arena.variables }
    {
        if c.items().len() < 2 {
            self.short.push(origin)?;
            return Ok(());
        }
        let id = self.arena.add(c)?;
        self.name(id, origin)?;
        watch_latest(&mut self.arena, id, trail)?;
        self.note(id, origin)
    }

    /// Notes a learned clause. Where there are many, the older half is forgotten.
    fn note(&mut self, id: ClauseId, origin: Origin) -> Result<(), Memory>
        ensures { self.new.arena.variables ≡ self.old.arena.variables }
    {
        if let Origin::Learned(_) = origin {
            self.learned.push(id)?;
            if self.learned.len() >= self.most {
                self.forget_older();
            }
        }
        Ok(())
    }

    /// Forgets the older half of the learned clauses, but for those of two literals. The log keeps
    /// what they say, so they stay reasons.
    fn forget_older(&mut self)
        ensures { self.new.arena.variables ≡ self.old.arena.variables }
    {
        let half = self.learned.len() / 2;
        let left = self.learned.len() - half;
        forget_all(&mut self.arena, &self.learned[..half]);
        self.learned.rotate_left(half);
        self.learned.truncate(left);
        self.most = self.most.saturating_add(MORE);
    }
}

/// Takes a clause of more than two literals out.
fn forget(arena: &mut Arena, id: ClauseId)
    ensures { arena.new.variables ≡ arena.old.variables }
{
    if arena.is_live(id) {
        if arena.clause(id).len() > 2 {
            arena.remove(id);
        }
    }
}

/// Takes clauses of more than two literals out.
fn forget_all(arena: &mut Arena, ids: &[ClauseId])
    ensures { arena.new.variables ≡ arena.old.variables }
{
    for id in ids {
        forget(arena, *id);
    }
}

/// The index of the literal that got its value last.
fn latest(trail: &Trail, lits: &[Lit]) -> usize
    requires { 0 < length lits.now }
    ensures { result < length lits.now }
{
    let mut best = 0;
    for i in 1..lits.len() {
        if trail.level(lits[i]) > trail.level(lits[best]) {
            best = i;
        }
    }
    best
}

/// The index from 2 on of the literal that got its value last, if that was after a given one.
fn later(trail: &Trail, lits: &[Lit], than: Lit) -> Option<usize>
    ensures above { IfSome result (λ i. 2 ≤ i) }
    ensures within { IfSome result (λ i. i < length lits.now) }
{
    let mut level = trail.level(than);
    let mut best = None;
    for i in 2..lits.len() {
        if trail.level(lits[i]) > level {
            level = trail.level(lits[i]);
            best = Some(i);
        }
    }
    best
}

/// Lets a clause be watched at the literal of an index in the stead of the one at index `from`. One
/// that is watched stays.
fn rewatch(arena: &mut Arena, id: ClauseId, from: usize, to: usize) -> Result<(), Memory>
    requires live { IsLive arena.old.live id }
    requires from { from < 2 }
    requires within { to < length (literals arena.old.live id) }
    ensures variables { arena.new.variables ≡ arena.old.variables }
    ensures live { OnOk result (IsLive arena.new.live id) }
{
    if to >= 2 {
        arena.move_watch(id, from, to)?;
    }
    Ok(())
}

/// Lets a clause be watched at the two literals that got their values last.
fn watch_latest(arena: &mut Arena, id: ClauseId, trail: &Trail) -> Result<(), Memory>
    requires { IsLive arena.old.live id }
    ensures { arena.new.variables ≡ arena.old.variables }
{
    let top = latest(trail, arena.clause(id));
    rewatch(arena, id, 0, top)?;
    let other = if top == 1 { 0 } else { 1 };
    watch_later(arena, id, other, trail)
}

/// Lets a clause be watched at a literal that got its value later than the watched one at an index.
fn watch_later(arena: &mut Arena, id: ClauseId, at: usize, trail: &Trail) -> Result<(), Memory>
    requires live { IsLive arena.old.live id }
    requires at { at < 2 }
    ensures { arena.new.variables ≡ arena.old.variables }
{
    let lits = arena.clause(id);
    match later(trail, lits, lits[at]) {
        None => Ok(()),
        Some(to) => arena.move_watch(id, at, to),
    }
}
