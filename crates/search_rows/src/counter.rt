//! A counter of eight bits that goes from 0 up to 199 and then back to 0, and a certificate made by
//! hand that it stays below 200.

ghost use Rattle.std.specs.Prelude.{◌≡◌, ℕ, ◌+◌, ◌<◌, IfOk, length, slice_index_or};
ghost use Rattle.clause_core.specs.declared.literal.Lit.{Lit as Literal};
ghost use Rattle.clause_core.specs.Literal.{variable_of};

use crate::building::{clause, is_accepted};
use clause_core::{Clause, Cnf, Lit};
use clause_derivation::Log;
use cnf_emit::BitSystem;
use ic3_frames::{OneStep, Refuted, one_step, refute};
use inductive_check::Certificate;
use std::alloc::Global;
use std::test::Fail;

// The bits before a step are the variables 0 to 7, the lowest first, and those after it 8 to 15.

/// That a state is bad: that its bits are a number of 200 or more. Before a step, and after it.
const BAD: u32 = 16;

const BAD_NEXT: u32 = 17;
/// That the counter stands at 199.
const LAST: u32 = 18;
/// That bit 1 is carried into; the variables after it say so of bits 2 to 7.
const CARRY: u32 = 19;

/// The code of a variable.
fn is(variable: u32) -> u32
    requires { variable < 100 }
    ensures { result < 200 }
{
    2 * variable
}

/// The code of a variable's negation.
fn is_not(variable: u32) -> u32
    requires { variable < 100 }
    ensures { result < 200 }
{
    2 * variable + 1
}

/// Adds a clause by its codes.
fn put(alloc: Global, cnf: &mut Cnf, codes: &[u32]) -> Result<(), Fail>
    ensures { cnf.new.variables ≡ cnf.old.variables }
{
    let c = clause(alloc, codes)?;
    if !c.is_in_range(cnf.variables()) {
        Err("a clause in range")?;
    }
    cnf.push(c)?;
    Ok(())
}

/// Says that a state is bad where bits 7 and 6 are true, and bit 5, 4 or 3: where it is 200 or more.
fn tie_bad(alloc: Global, cnf: &mut Cnf, bad: u32, first: u32) -> Result<(), Fail>
    requires bad { bad < 50 }
    requires first { first < 50 }
    ensures { cnf.new.variables ≡ cnf.old.variables }
{
    put(alloc, cnf, &[is_not(bad), is(first + 7)])?;
    put(alloc, cnf, &[is_not(bad), is(first + 6)])?;
    put(
        alloc,
        cnf,
        &[is_not(bad), is(first + 5), is(first + 4), is(first + 3)],
    )?;
    put(
        alloc,
        cnf,
        &[
            is(bad),
            is_not(first + 7),
            is_not(first + 6),
            is_not(first + 5),
        ],
    )?;
    put(
        alloc,
        cnf,
        &[
            is(bad),
            is_not(first + 7),
            is_not(first + 6),
            is_not(first + 4),
        ],
    )?;
    put(
        alloc,
        cnf,
        &[
            is(bad),
            is_not(first + 7),
            is_not(first + 6),
            is_not(first + 3),
        ],
    )
}

/// Says that the counter stands at 199, which is 11000111 in bits.
fn tie_last(alloc: Global, cnf: &mut Cnf) -> Result<(), Fail>
    ensures { cnf.new.variables ≡ cnf.old.variables }
{
    for code in [14, 12, 11, 9, 7, 4, 2, 0] {
        put(alloc, cnf, &[is_not(LAST), code])?;
    }
    put(alloc, cnf, &[is(LAST), 15, 13, 10, 8, 6, 5, 3, 1])
}

/// Says that bit k + 1 is carried into where bit k is true and is carried into.
fn tie_carry(alloc: Global, cnf: &mut Cnf, k: u32) -> Result<(), Fail>
    requires { k < 10 }
    ensures { cnf.new.variables ≡ cnf.old.variables }
{
    if k == 0 {
        put(alloc, cnf, &[is_not(CARRY), is(0)])?;
        return put(alloc, cnf, &[is(CARRY), is_not(0)]);
    }
    put(alloc, cnf, &[is_not(CARRY + k), is(k)])?;
    put(alloc, cnf, &[is_not(CARRY + k), is(CARRY + k - 1)])?;
    put(
        alloc,
        cnf,
        &[is(CARRY + k), is_not(k), is_not(CARRY + k - 1)],
    )
}

/// Says what bit k is after a step: false after 199, and else turned where it is carried into.
fn tie_next(alloc: Global, cnf: &mut Cnf, k: u32) -> Result<(), Fail>
    requires { k < 10 }
    ensures { cnf.new.variables ≡ cnf.old.variables }
{
    put(alloc, cnf, &[is_not(LAST), is_not(8 + k)])?;
    if k == 0 {
        put(alloc, cnf, &[is(LAST), is(8), is(0)])?;
        return put(alloc, cnf, &[is(LAST), is_not(8), is_not(0)]);
    }
    let carry = CARRY + k - 1;
    put(alloc, cnf, &[is(LAST), is_not(8 + k), is(k), is(carry)])?;
    put(
        alloc,
        cnf,
        &[is(LAST), is_not(8 + k), is_not(k), is_not(carry)],
    )?;
    put(alloc, cnf, &[is(LAST), is(8 + k), is_not(k), is(carry)])?;
    put(alloc, cnf, &[is(LAST), is(8 + k), is(k), is_not(carry)])
}

/// The start of the counter, at 0.
fn start(alloc: Global) -> Result<Cnf, Fail>
    ensures { IfOk result (λ f. f.variables ≡ 17) }
{
    let mut cnf = Cnf::make(alloc, 17);
    for k in 0..8 {
        put(alloc, &mut cnf, &[is_not(k)])?;
    }
    tie_bad(alloc, &mut cnf, BAD, 0)?;
    Ok(cnf)
}

/// The steps of the counter.
fn step(alloc: Global) -> Result<Cnf, Fail>
    ensures { IfOk result (λ f. f.variables ≡ 26) }
{
    let mut cnf = Cnf::make(alloc, 26);
    tie_bad(alloc, &mut cnf, BAD, 0)?;
    tie_bad(alloc, &mut cnf, BAD_NEXT, 8)?;
    tie_last(alloc, &mut cnf)?;
    for k in 0..7 {
        tie_carry(alloc, &mut cnf, k)?;
    }
    for k in 0..8 {
        tie_next(alloc, &mut cnf, k)?;
    }
    Ok(cnf)
}

/// The literals of eight variables.
fn eight(alloc: Global, from: u32) -> Result<Vec<Lit>, Fail>
    requires { from < 50 }
    ensures length { IfOk result (λ v. length v.items ≡ 8) }
    ensures each { IfOk result (λ v. (k : ℕ) (d : Literal) → k < 8
        → variable_of (slice_index_or v.items k d) ≡ from + k) }
{
    let mut out = Vec::new(alloc);
    for k in 0..8 {
        out.push(Lit {
            code: 2 * (from + k),
        })?;
    }
    Ok(out)
}

/// The counter.
fn counter(alloc: Global) -> Result<BitSystem, Fail> {
    let start = start(alloc)?;
    let step = step(alloc)?;
    let current = eight(alloc, 0)?;
    let next = eight(alloc, 8)?;
    let bad = Lit { code: 32 };
    let bad_next = Lit { code: 34 };
    Ok(BitSystem::make(start, step, current, next, bad, bad_next))
}

/// The clauses that say "below 200": not bits 7, 6 and 5, not bits 7, 6 and 4, and none of the numbers
/// 11.01000 to 11.01111, each by its three lowest bits.
fn below_200(alloc: Global) -> Result<Vec<Clause>, Fail> {
    let mut out = Vec::new(alloc);
    for codes in [[15, 13, 11].as_slice(), [15, 13, 9].as_slice()] {
        let c = clause(alloc, codes)?;
        out.push(c)?;
    }
    for low in 0..8u32 {
        let c = clause(alloc, &[15, 13, 7, low % 2, 2 + low / 2 % 2, 4 + low / 4])?;
        out.push(c)?;
    }
    Ok(out)
}

/// The literals of a clause turned, and moved on by this many variables, after those of `first`.
fn turned(alloc: Global, first: &[u32], c: &Clause, moved: u32) -> Result<Clause, Fail>
    requires { moved < 50 }
{
    let mut codes = Vec::new(alloc);
    for code in first {
        codes.push(*code)?;
    }
    for l in c.items() {
        codes.push(l.negated().code.wrapping_add(2 * moved))?;
    }
    clause(alloc, codes.as_slice())
}

/// A log that refutes a formula, more clauses and units.
fn log_of(alloc: Global, cnf: &Cnf, more: &[Clause], units: &Clause) -> Result<Log, Fail> {
    let fits = more.iter().all(|c| c.is_in_range(cnf.variables()));
    if !fits {
        Err("clauses in range")?;
    }
    if !units.is_in_range(cnf.variables()) {
        Err("units in range")?;
    }
    match refute(alloc, cnf, more, units.items())? {
        Refuted::Derived(log) => Ok(log),
        Refuted::Satisfied(_) => Err(Fail::from("clauses that cannot be satisfied")),
    }
}

/// The certificate of these clauses.
fn certified(alloc: Global, system: &BitSystem, clauses: Vec<Clause>) -> Result<Certificate, Fail> {
    let mut starts = Vec::new(alloc);
    let mut steps = Vec::new(alloc);
    for c in &clauses {
        let units = turned(alloc, &[], c, 0)?;
        starts.push(log_of(alloc, system.start(), &[], &units)?)?;
        let units = turned(alloc, &[33], c, 8)?;
        steps.push(log_of(alloc, system.step(), clauses.as_slice(), &units)?)?;
    }
    let units = clause(alloc, &[32])?;
    starts.push(log_of(alloc, system.start(), &[], &units)?)?;
    let units = clause(alloc, &[33, 34])?;
    steps.push(log_of(alloc, system.step(), clauses.as_slice(), &units)?)?;
    Ok(Certificate::make(clauses, starts, steps))
}

/// The ten clauses are accepted.
#[test]
fn certificate(rt: HostRuntime) -> Result<(), Fail> {
    let system = counter(rt.alloc())?;
    let clauses = below_200(rt.alloc())?;
    assert_eq!(rt; clauses.len(), 10);
    let c = certified(rt.alloc(), &system, clauses)?;
    assert!(rt; is_accepted(rt.alloc(), &system, &c)?);
    Ok(())
}

/// "Below 200" is inductive by itself.
#[test]
fn by_itself(rt: HostRuntime) -> Result<(), Fail> {
    let system = counter(rt.alloc())?;
    match one_step(rt.alloc(), &system)? {
        OneStep::Inductive(c) => assert!(rt; is_accepted(rt.alloc(), &system, &c)?),
        _ => Err("a certificate")?,
    }
    Ok(())
}
