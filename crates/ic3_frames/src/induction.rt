//! One step of induction: whether "not bad" is inductive by itself.

ghost use Rattle.std.specs.Prelude.{◌≡◌, ◌↔◌, [], ◌∷◌, IfOk, IsTrue};
ghost use Rattle.inductive_check.specs.Certificates.{IsCertificate};
ghost use Rattle.ic3_frames.specs.Induction.{IfInductive, IfBadStart, IfBadStep, IsBadStart, IsBadStep, IsInductive, is_inductive};

use crate::refutation::{Refuted, refute};
use clause_core::{Assignment, Memory};
use clause_derivation::Log;
use clause_derivation::derivation::derivations_hold;
use cnf_emit::BitSystem;
use inductive_check::Certificate;
use std::alloc::Global;

/// What one step of induction comes to.
#[derive(Drop)]
pub enum OneStep {
    /// A certificate without clauses: no start is bad, and no step leads from a state that is not
    /// bad into a bad one.
    Inductive(Certificate),
    /// A start that is bad.
    BadStart(Assignment),
    /// A step from a state that is not bad into a bad one.
    BadStep(Assignment),
}

/// The certificate that has no clauses and these two logs.
fn without_clauses(alloc: Global, start: Log, step: Log) -> Result<Certificate, Memory>
    ensures clauses { IfOk result (λ c. c.clauses ≡ []) }
    ensures starts { IfOk result (λ c. c.starts ≡ start ∷ []) }
    ensures steps { IfOk result (λ c. c.steps ≡ step ∷ []) }
{
    let mut starts = Vec::new(alloc);
    starts.push(start)?;
    let mut steps = Vec::new(alloc);
    steps.push(step)?;
    Ok(Certificate::make(Vec::new(alloc), starts, steps))
}

/// Whether "not bad" is inductive by itself: first whether a start is bad, then whether a step leads
/// from a state that is not bad into a bad one. It answers nothing but a certificate without
/// clauses, which is accepted, a bad start, a bad step, and want of memory.
pub fn one_step(alloc: Global, system: &BitSystem) -> Result<OneStep, Memory>
    ensures inductive { IfOk result (λ o. IfInductive o (λ c.
        IsCertificate system.now c × (c.clauses ≡ []))) }
    ensures bad_start { IfOk result (λ o. IfBadStart o (IsBadStart system.now)) }
    ensures bad_step { IfOk result (λ o. IfBadStep o (IsBadStep system.now)) }

    // It answers the certificate exactly where there is neither a bad start nor a bad step.
    ensures exact { IfOk result (λ o. IsTrue (is_inductive o) ↔ IsInductive system.now) }
{
    derivations_hold();
    let start = match refute(alloc, system.start(), &[], &[system.bad()])? {
        Refuted::Derived(log) => log,
        Refuted::Satisfied(a) => return Ok(OneStep::BadStart(a)),
    };
    let units = [system.bad().negated(), system.bad_next()];
    let step = match refute(alloc, system.step(), &[], &units)? {
        Refuted::Derived(log) => log,
        Refuted::Satisfied(a) => return Ok(OneStep::BadStep(a)),
    };
    let c = without_clauses(alloc, start, step)?;
    Ok(OneStep::Inductive(c))
}
