//! What the search works on, beside the clauses and the log.

ghost use Rattle.std.specs.Prelude.{◌≡◌, [], IfOk};
ghost use Rattle.sat_solver.specs.Searching.{Fits};

use crate::order::Order;
use crate::resolvent::Resolvent;
use crate::trail::Trail;
use crate::watched::Watched;
use clause_core::Memory;
use std::alloc::Global;

/// How many conflicts there are before the first restart.
const FIRST_RESTART: u64 = 100;

/// When the search restarts: after ever more conflicts.
#[derive(Drop)]
pub struct Restarts {
    /// How many conflicts there were since the last restart.
    conflicts: u64,
    /// How many lead to the next.
    limit: u64,
}

impl Restarts {
    /// No conflict so far.
    pub fn make() -> Restarts {
        Restarts {
            conflicts: 0,
            limit: FIRST_RESTART,
        }
    }

    /// Counts a conflict, and answers whether the search is to restart.
    pub fn is_due(&mut self) -> bool {
        self.conflicts = self.conflicts.saturating_add(1);
        if self.conflicts < self.limit {
            return false;
        }
        self.conflicts = 0;
        let part = self.limit / 4;
        self.limit = self.limit.saturating_add(part);
        true
    }
}

/// What the search works on, beside the clauses and the log.
#[derive(Drop)]
pub struct Engine {
    pub alloc: Global,
    pub trail: Trail,
    pub marks: Resolvent,
    pub watched: Watched,
    pub order: Order,
    pub restarts: Restarts,
    /// How many clauses of the formula are watched.
    pub attached: usize,
}

impl Engine {
    /// The engine over this many variables, without clauses.
    pub fn make(alloc: Global, variables: u32) -> Result<Engine, Memory>
        ensures fits { IfOk result (λ e. Fits variables e) }
        ensures entries { IfOk result (λ e. e.trail.entries ≡ []) }
    {
        let trail = Trail::make(alloc, variables)?;
        let marks = Resolvent::make(alloc, variables)?;
        let watched = Watched::make(alloc, variables)?;
        let order = Order::make(alloc, variables)?;
        Ok(Engine {
            alloc,
            trail,
            marks,
            watched,
            order,
            restarts: Restarts::make(),
            attached: 0,
        })
    }
}
