//! Certificates made by hand, and which of them are accepted.

use crate::building::{certificate, is_accepted, one_bit, two_bits};
use std::alloc::Global;
use std::test::Fail;

/// Whether a system of one bit that each step keeps has the certificate of these numbers.
///
/// The system: bit x0, next bit x1, `start` not x0, `step` {x0, not x1}, {not x0, x1}. The clause
/// "not x0" has the start log over 0: not x0, 1: x0, and the step log over 0: {x0, not x1},
/// 1: {not x0, x1}, 2: not x0, 3: not x0 (not bad), 4: x1. The last logs are over the same lists.
fn kept(
    alloc: Global,
    clauses: &[&[u32]],
    starts: &[&[u32]],
    steps: &[&[u32]],
) -> Result<bool, Fail> {
    let system = one_bit(alloc, &[&[1]], &[&[0, 3], &[1, 2]])?;
    let c = certificate(alloc, clauses, starts, steps)?;
    is_accepted(alloc, &system, &c)
}

/// The start log and the step log that refute "not x0" false, in `kept`.
const START: [u32; 3] = [0, 1, 0];

const STEP: [u32; 5] = [0, 2, 0, 4, 1];

/// The certificate of one clause, and the one of none.
#[test]
fn whole(rt: HostRuntime) -> Result<(), Fail> {
    let a = rt.alloc();
    assert!(rt; kept(a, &[&[1]], &[&START, &START], &[&STEP, &STEP])?);
    assert!(rt; kept(a, &[], &[&START], &[&[0, 2, 0, 3, 1]])?);
    Ok(())
}

/// One log too few, one too many, and none at all.
#[test]
fn counts(rt: HostRuntime) -> Result<(), Fail> {
    let a = rt.alloc();
    assert!(rt; !kept(a, &[&[1]], &[&START], &[&STEP, &STEP])?);
    assert!(rt; !kept(a, &[&[1]], &[&START, &START], &[&STEP])?);
    assert!(rt; !kept(a, &[&[1]], &[&START, &START, &START], &[&STEP, &STEP])?);
    assert!(rt; !kept(a, &[], &[], &[])?);
    Ok(())
}

/// A log without chains, one whose pivot is missing, and one that ends in a clause that is not empty.
#[test]
fn chains(rt: HostRuntime) -> Result<(), Fail> {
    let a = rt.alloc();
    assert!(rt; !kept(a, &[&[1]], &[&[], &START], &[&STEP, &STEP])?);
    assert!(rt; !kept(a, &[&[1]], &[&START, &[0, 1, 1]], &[&STEP, &STEP])?);
    assert!(rt; !kept(a, &[&[1]], &[&START, &START], &[&STEP, &[0, 2, 0]])?);
    Ok(())
}

/// A clause that has a literal twice, though all its logs are right.
#[test]
fn literal_twice(rt: HostRuntime) -> Result<(), Fail> {
    let a = rt.alloc();
    assert!(rt; !kept(a, &[&[1, 1]], &[&START, &START], &[&STEP, &STEP])?);
    Ok(())
}

/// A clause over the next bit, which is not one of the state, though all its logs are right: `start`
/// is not x0, not x1, and the clause is "not x1".
#[test]
fn literal_of_next(rt: HostRuntime) -> Result<(), Fail> {
    let a = rt.alloc();
    let system = one_bit(a, &[&[1], &[3]], &[&[0, 3], &[1, 2]])?;
    let own = certificate(a, &[&[1]], &[&[0, 2, 0], &[0, 2, 0]], &[&STEP, &STEP])?;
    assert!(rt; is_accepted(a, &system, &own)?);
    let other = certificate(
        a,
        &[&[3]],
        &[&[1, 2, 1], &[0, 2, 0]],
        &[&[2, 4, 1], &[2, 4, 1]],
    )?;
    assert!(rt; !is_accepted(a, &system, &other)?);
    Ok(())
}

/// Whether the system of two bits with `start` not x0, not x4 and `step` {x0, not x2}, {x4, not x5}
/// has a certificate of the clause "not x0" with this step log of it. That the state is bad is tied
/// to no bit, so the system is not steady. The list of the log: 0: {x0, not x2}, 1: {x4, not x5},
/// 2: not x0 (the clause), 3: not x4 (not bad), 4: x2.
fn unsteady(alloc: Global, step: &[u32]) -> Result<bool, Fail> {
    let system = two_bits(alloc, &[&[1], &[9]], &[&[0, 5], &[8, 11]])?;
    let c = certificate(
        alloc,
        &[&[1]],
        &[&[0, 2, 0], &[1, 2, 4]],
        &[step, &[1, 3, 4, 4, 5]],
    )?;
    is_accepted(alloc, &system, &c)
}

/// A log counts with the numbers of its own list: the clauses of the certificate come before "not
/// bad", and that before the opposites of the renamed literals.
#[test]
fn order_of_the_list(rt: HostRuntime) -> Result<(), Fail> {
    let a = rt.alloc();
    assert!(rt; unsteady(a, &[0, 2, 0, 4, 2])?);
    assert!(rt; !unsteady(a, &[0, 4, 0, 3, 2])?);
    assert!(rt; !unsteady(a, &[0, 3, 0, 4, 2])?);
    assert!(rt; !unsteady(a, &[0, 2, 0, 3, 2])?);
    Ok(())
}
