//! Rows worked out by hand: what lists of calls leave live and watched.

ghost use Rattle.std.specs.Prelude.{◌≡◌, ◌==◌, IsTrue, IfOk, All};
ghost use Rattle.std.specs.List.{list_any};
ghost use Rattle.sat_arena.specs.Live.{IsLive};
ghost use Rattle.clause_core.specs.Members.{NoneTwice};

use clause_core::{Clause, Lit};
use sat_arena::{Arena, ClauseId};
use std::alloc::Global;
use std::test::Fail;

/// One call of an arena. Clauses are named by the order of adding, from 0.
#[derive(Clone, Copy)]
enum Call<'a> {
    /// Adds the clause of the literals with these codes.
    Add(&'a [u32]),
    /// Takes a clause out.
    Remove(usize),
    /// Swaps the literals of a clause at two indices, a watched one and another.
    Move(usize, usize, usize),
    /// Gives new places to the clauses that are still there.
    Compact,
}

use Call::{Add, Compact, Move, Remove};

/// An arena after some calls, with the id of each clause that was added and is still there.
#[derive(Drop)]
struct Run {
    arena: Arena,
    ids: Vec<Option<ClauseId>>,
}

/// The clause of the literals with these codes.
fn clause_of(alloc: Global, codes: &[u32]) -> Result<Clause, Fail> {
    let mut lits = Vec::new(alloc);
    for code in codes {
        lits.push(Lit { code: *code })?;
    }
    Ok(Clause::make(alloc, lits))
}

/// Whether the literal is one of these.
fn contains(lits: &[Lit], l: Lit) -> bool
    ensures { result ≡ list_any (λ k. k.code == l.code) lits.now }
{
    lits.iter().any(|k| k.code == l.code)
}

/// Whether no literal stands twice.
fn differ(lits: &[Lit]) -> bool
    ensures { IsTrue result → NoneTwice lits.now }
{
    for (i, l) in lits.iter().enumerate() {
        if contains(&lits[..i], *l) {
            return false;
        }
    }
    true
}

/// Adds a clause, where the arena takes it.
fn add(arena: &mut Arena, c: &Clause) -> Result<Option<ClauseId>, Fail> {
    if c.items().len() >= 2 {
        if differ(c.items()) {
            if c.is_in_range(arena.variables()) {
                let id = arena.add(c)?;
                return Ok(Some(id));
            }
        }
    }
    Ok(None)
}

/// Takes a clause out, where it is there.
fn remove(arena: &mut Arena, id: ClauseId) {
    if arena.is_live(id) {
        arena.remove(id);
    }
}

/// Moves a watch, where the arena takes that.
fn move_watch(arena: &mut Arena, id: ClauseId, from: usize, to: usize) -> Result<(), Fail> {
    if arena.is_live(id) {
        let length = arena.clause(id).len();
        if from < 2 && to >= 2 && to < length {
            arena.move_watch(id, from, to)?;
        }
    }
    Ok(())
}

/// Those ids that name a live clause.
fn held(alloc: Global, arena: &Arena, ids: &[Option<ClauseId>]) -> Result<Vec<ClauseId>, Fail>
    ensures { IfOk result (λ v. All (IsLive arena.now.live) v.items) }
{
    let mut held = Vec::new(alloc);
    for id in ids {
        if let Some(id) = id {
            if arena.is_live(*id) {
                held.push(*id)?;
            }
        }
    }
    Ok(held)
}

/// Gives new places, and the clauses that are still there their new ids.
fn compact(alloc: Global, run: &mut Run) -> Result<(), Fail> {
    let mut held = held(alloc, &run.arena, run.ids.as_slice())?;
    run.arena.compact(&mut held);
    let mut next = 0;
    for id in run.ids.iter_mut() {
        if id.is_some() && next < held.len() {
            *id = Some(held[next]);
            next += 1;
        }
    }
    Ok(())
}

/// The id of a clause, if it is still there.
fn id_of(run: &Run, k: usize) -> Option<ClauseId> {
    if k < run.ids.len() { run.ids[k] } else { None }
}

/// Makes a call.
fn take_call(alloc: Global, run: &mut Run, call: Call<'_>) -> Result<(), Fail> {
    match call {
        Add(codes) => {
            let c = clause_of(alloc, codes)?;
            let id = add(&mut run.arena, &c)?;
            run.ids.push(id)?;
        }
        Remove(k) => {
            if let Some(id) = id_of(run, k) {
                remove(&mut run.arena, id);
                if k < run.ids.len() {
                    run.ids[k] = None;
                }
            }
        }
        Move(k, from, to) => {
            if let Some(id) = id_of(run, k) {
                move_watch(&mut run.arena, id, from, to)?;
            }
        }
        Compact => compact(alloc, run)?,
    }
    Ok(())
}

/// The place of a clause, then the codes of its literals; nothing where it is not there.
fn clause(alloc: Global, run: &Run, k: usize) -> Result<Vec<u32>, Fail> {
    let mut found = Vec::new(alloc);
    if let Some(id) = id_of(run, k) {
        if run.arena.is_live(id) {
            found.push(id.place)?;
            for l in run.arena.clause(id) {
                found.push(l.code)?;
            }
        }
    }
    Ok(found)
}

/// The places of the clauses that are watched at a literal, in rising order.
fn watched(alloc: Global, arena: &Arena, l: Lit) -> Result<Vec<u32>, Fail> {
    let mut places = Vec::new(alloc);
    if l.variable() < arena.variables() {
        for id in arena.watches(l) {
            places.push(id.place)?;
        }
    }
    places.sort()?;
    Ok(places)
}

/// An arena over three variables with the clauses {a, b}, {-b, c, a} and {a, -c}, after more calls.
fn run_of(alloc: Global, calls: &[Call<'_>]) -> Result<Run, Fail> {
    let mut run = Run {
        arena: Arena::make(alloc, 3)?,
        ids: Vec::new(alloc),
    };
    for call in [Add(&[0, 2]), Add(&[3, 4, 0]), Add(&[0, 5])] {
        take_call(alloc, &mut run, call)?;
    }
    for call in calls {
        take_call(alloc, &mut run, *call)?;
    }
    Ok(run)
}

/// What calls leave: for each clause, in the order of adding, its place and its literals, and nothing
/// where it was removed; and for each literal the places of the clauses that are watched at it.
#[test]
fn calls(rt: HostRuntime) -> Result<(), Fail> {
    let rows: [(&[Call<'_>], &[&[u32]], [&[u32]; 6]); 9] = [
        (
            &[],
            &[&[0, 0, 2], &[1, 3, 4, 0], &[2, 0, 5]],
            [&[0, 2], &[], &[0], &[1], &[1], &[2]],
        ),
        (
            &[Move(1, 0, 2)],
            &[&[0, 0, 2], &[1, 0, 4, 3], &[2, 0, 5]],
            [&[0, 1, 2], &[], &[0], &[], &[1], &[2]],
        ),
        (
            &[Move(1, 1, 2)],
            &[&[0, 0, 2], &[1, 3, 0, 4], &[2, 0, 5]],
            [&[0, 1, 2], &[], &[0], &[1], &[], &[2]],
        ),
        (
            &[Remove(1)],
            &[&[0, 0, 2], &[], &[2, 0, 5]],
            [&[0, 2], &[], &[0], &[], &[], &[2]],
        ),
        (
            &[Remove(1), Compact],
            &[&[0, 0, 2], &[], &[1, 0, 5]],
            [&[0, 1], &[], &[0], &[], &[], &[1]],
        ),
        (
            &[Move(1, 0, 2), Remove(0), Compact],
            &[&[], &[0, 0, 4, 3], &[1, 0, 5]],
            [&[0, 1], &[], &[], &[], &[0], &[1]],
        ),
        (
            &[Remove(0), Compact, Add(&[1, 3])],
            &[&[], &[0, 3, 4, 0], &[1, 0, 5], &[2, 1, 3]],
            [&[1], &[2], &[], &[0, 2], &[0], &[1]],
        ),
        (
            &[Remove(1), Add(&[5, 2, 1])],
            &[&[0, 0, 2], &[], &[2, 0, 5], &[3, 5, 2, 1]],
            [&[0, 2], &[], &[0, 3], &[], &[], &[2, 3]],
        ),
        (
            &[Remove(0), Remove(2), Remove(1), Compact],
            &[&[], &[], &[]],
            [&[], &[], &[], &[], &[], &[]],
        ),
    ];
    for (row, (calls, clauses, lists)) in rows.iter().enumerate() {
        let run = run_of(rt.alloc(), *calls)?;
        assert_eq!(rt; run.arena.variables(), 3);
        assert_eq!(rt; run.ids.len(), clauses.len());
        for (k, want) in clauses.iter().enumerate() {
            let found = clause(rt.alloc(), &run, k)?;
            assert_eq!(rt; found.as_slice(), *want, "clause {k} of row {row}");
        }
        for (code, want) in lists.iter().enumerate() {
            let l = Lit { code: code as u32 };
            let found = watched(rt.alloc(), &run.arena, l)?;
            assert_eq!(rt; found.as_slice(), *want, "list {code} of row {row}");
        }
    }
    Ok(())
}

/// More variables than literals can speak of.
#[test]
fn too_many_variables(rt: HostRuntime) {
    assert!(rt; Arena::make(rt.alloc(), (1 << 31) + 1).is_err());
}
