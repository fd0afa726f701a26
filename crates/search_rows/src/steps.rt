//! What one step of induction answers of systems of one bit.

use crate::building::{is_accepted, one_bit};
use clause_derivation::Log;
use cnf_emit::BitSystem;
use ic3_frames::{OneStep, one_step};
use inductive_check::Certificate;
use std::alloc::Global;
use std::test::Fail;

/// What was answered, as far as the rows tell.
#[derive(Clone, Copy, Debug, PartialEq, Eq)]
enum Told {
    /// A certificate, and whether it has no clauses and is accepted.
    Inductive(bool),
    /// A bad start, by its bit.
    BadStart(bool),
    /// A bad step, by its bit before and after.
    BadStep(bool, bool),
}

/// What one step of induction answers.
fn told_of(alloc: Global, system: &BitSystem) -> Result<Told, Fail> {
    let answer = one_step(alloc, system)?;
    match &answer {
        OneStep::Inductive(c) => {
            let accepted = is_accepted(alloc, system, c)?;
            Ok(Told::Inductive(accepted & c.clauses().is_empty()))
        }
        OneStep::BadStart(a) => Ok(Told::BadStart(a.value(0))),
        OneStep::BadStep(a) => Ok(Told::BadStep(a.value(0), a.value(1))),
    }
}

/// A step that keeps the bit keeps it from being bad.
#[test]
fn bit_is_kept(rt: HostRuntime) -> Result<(), Fail> {
    let system = one_bit(rt.alloc(), &[&[1]], &[&[0, 3], &[1, 2]])?;
    assert_eq!(rt; told_of(rt.alloc(), &system)?, Told::Inductive(true));
    Ok(())
}

/// A step that allows every change leads from a state that is not bad into a bad one.
#[test]
fn bit_is_free(rt: HostRuntime) -> Result<(), Fail> {
    let system = one_bit(rt.alloc(), &[&[1]], &[])?;
    assert_eq!(rt; told_of(rt.alloc(), &system)?, Told::BadStep(false, true));
    Ok(())
}

/// A start that leaves the bit open is bad.
#[test]
fn start_is_free(rt: HostRuntime) -> Result<(), Fail> {
    let system = one_bit(rt.alloc(), &[], &[&[0, 3], &[1, 2]])?;
    assert_eq!(rt; told_of(rt.alloc(), &system)?, Told::BadStart(true));
    Ok(())
}

/// The certificate without its start chains.
fn without_start(alloc: Global, c: &Certificate) -> Result<Certificate, Fail> {
    let starts = vec![in alloc; Log::make(alloc, Vec::new(alloc))]?;
    let mut steps = Vec::new(alloc);
    for log in c.steps() {
        let one = log.copy(alloc)?;
        steps.push(one)?;
    }
    Ok(Certificate::make(Vec::new(alloc), starts, steps))
}

/// A certificate whose start log has lost its chains is not accepted.
#[test]
fn start_log_is_empty(rt: HostRuntime) -> Result<(), Fail> {
    let system = one_bit(rt.alloc(), &[&[1]], &[&[0, 3], &[1, 2]])?;
    match one_step(rt.alloc(), &system)? {
        OneStep::Inductive(c) => {
            let less = without_start(rt.alloc(), &c)?;
            assert!(rt; !is_accepted(rt.alloc(), &system, &less)?);
        }
        _ => Err("a certificate")?,
    }
    Ok(())
}
