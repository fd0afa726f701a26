//! Demands as pieces: each with the tests and variables that stand around it.

#![tactic(auto, using(crate::proofs::PieceEquations::pieces))]

ghost use Rattle.std.specs.Prelude.{◌≡◌, ◌++◌, map, OnOk, IfOk};
ghost use Rattle.rule_inline.specs.Demands.{demand, negated, piece_of};
ghost use Rattle.rule_terms.specs.Gathered.{seen_demands};
ghost use Rattle.rule_pieces.specs.Around.{around_all, binders_in, but_last, left_of, lefts_in, test_of, tests_in, wrapped};

use rule_terms::build::{added, lift, not, two};
use rule_terms::demand::Demands;
use sqlite_items::Items;
use std::alloc::Global;
use term_core::machine::Piece;
use term_core::term::Term;
use term_core::text::Memory;

/// What stands around a part.
#[derive(Drop)]
pub enum Around {
    Bound,
    Under { frame: u32, test: Term },
    Unless { frame: u32, left: Term },
}

/// How many variables are bound by these.
fn binders(around: &[Around]) -> Result<u32, Memory>
    ensures { IfOk result (λ n. n ≡ binders_in around.now) }
{
    let mut count = 0u32;
    for a in around {
        match a {
            Around::Bound => count = added(count, 1)?,
            Around::Under { .. } | Around::Unless { .. } => {}
        }
    }
    Ok(count)
}

/// The test that one of them is, with those inside it.
fn with_test(
    alloc: Global,
    front: Items<Term>,
    one: &Around,
    inside: &[Around],
) -> Result<Items<Term>, Memory>
    ensures { IfOk result (λ ts. ts ≡ front ++ test_of (binders_in inside.now) one.now) }
{
    let mut out = front;
    match one {
        Around::Under { frame, test } => {
            let inner = binders(inside)?;
            let t = lift(alloc, test, *frame, inner)?;
            out.push(t)?;
            Ok(out)
        }
        Around::Bound | Around::Unless { .. } => Ok(out),
    }
}

/// The tests around a part, from outside to inside.
fn tests(alloc: Global, around: &[Around]) -> Result<Items<Term>, Memory>
    ensures { IfOk result (λ ts. ts ≡ tests_in around.now) }
{
    let mut out = Items::new(alloc);
    for at in 0..around.len() {
        out = with_test(alloc, out, &around[at], &around[at + 1..])?;
    }
    Ok(out)
}

/// That one of them was not met, where it is a `return`.
fn with_left(
    alloc: Global,
    front: Items<Term>,
    one: &Around,
    inside: &[Around],
) -> Result<Items<Term>, Memory>
    ensures { IfOk result (λ ts. ts ≡ front ++ negated (left_of (binders_in inside.now) one.now)) }
{
    let mut out = front;
    match one {
        Around::Unless { frame, left } => {
            let inner = binders(inside)?;
            let t = lift(alloc, left, *frame, inner)?;
            let t = not(alloc, t)?;
            out.push(t)?;
            Ok(out)
        }
        Around::Bound | Around::Under { .. } => Ok(out),
    }
}

/// That no `return` was met before a part, from outside to inside, after the tests.
fn path(alloc: Global, front: Items<Term>, around: &[Around]) -> Result<Items<Term>, Memory>
    ensures { IfOk result (λ ts. ts ≡ front ++ negated (lefts_in around.now)) }
{
    let mut out = front;
    for at in 0..around.len() {
        out = with_left(alloc, out, &around[at], &around[at + 1..])?;
    }
    Ok(out)
}

/// The piece of one demand.
fn piece(alloc: Global, around: &[Around], must: &Term) -> Result<Piece, Memory>
    ensures { IfOk result (λ p. p ≡ piece_of (wrapped around.now (demand must.now))) }
{
    let front = tests(alloc, around)?;
    let path = path(alloc, front, around)?;
    let unreached = not(alloc, Term::And(path))?;
    let must = must.copy(alloc)?;
    let parts = two(alloc, unreached, must)?;
    let binders = binders(around)?;
    Ok(Piece {
        binders,
        body: Term::Or(parts),
    })
}

/// Takes the innermost away.
fn leave(around: &mut Items<Around>)
    ensures { around.new ≡ but_last around.old }
{
    match around.pop() {
        Some(_) => {}
        None => {}
    }
}

/// Adds the pieces of demands, with these around them.
pub fn add_pieces(
    alloc: Global,
    d: &Demands,
    around: &mut Items<Around>,
    out: &mut Items<Piece>,
) -> Result<(), Memory>
    ensures out { OnOk result (out.new ≡ out.old ++ map piece_of (around_all around.old (seen_demands d.now))) }
    ensures around { OnOk result (around.new ≡ around.old) }
{
    match d {
        Demands::Nothing => Ok(()),
        Demands::One(must) => {
            let p = piece(alloc, around.as_slice(), must)?;
            out.push(p)?;
            Ok(())
        }
        Demands::Both { first, second } => {
            add_pieces(alloc, first.get(), around, out)?;
            add_pieces(alloc, second.get(), around, out)?;
            Ok(())
        }
        Demands::Under { frame, test, inner } => {
            let test = test.copy(alloc)?;
            around.push(Around::Under {
                frame: *frame,
                test,
            })?;
            add_pieces(alloc, inner.get(), around, out)?;
            leave(around);
            Ok(())
        }
        Demands::Unless { frame, left, inner } => {
            let left = left.copy(alloc)?;
            around.push(Around::Unless {
                frame: *frame,
                left,
            })?;
            add_pieces(alloc, inner.get(), around, out)?;
            leave(around);
            Ok(())
        }
        Demands::Binding(inner) => {
            around.push(Around::Bound)?;
            add_pieces(alloc, inner.get(), around, out)?;
            leave(around);
            Ok(())
        }
    }
}
