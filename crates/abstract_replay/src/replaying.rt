//! A path is gone through step by step, and its last state is held against the formulas.

ghost use Rattle.std.specs.Prelude.{◌≡◌, ◌↔◌, ◌<◌, length, IfOk, IsTrue};
ghost use Rattle.other_abstract.specs.Making.{IsMade};
ghost use Rattle.other_abstract.specs.Machines.{IsClean};
ghost use Rattle.other_abstract.specs.declared.state.AbsStep.{AbsStep};
ghost use Rattle.std.specs.Prelude.{slice_get, Some};
ghost use Rattle.abstract_replay.specs.declared.path.ReplayEnd.{ReplayEnd};
ghost use Rattle.abstract_replay.specs.Paths.{StepFits, PathFits, StartFaults, IsJudged, ComesTo, state_after, last_state};
ghost use Rattle.abstract_replay.specs.Steps.{BrokenIs, ViolatedIs};

use crate::path::{Path, ReplayEnd};
use other_abstract::machine::AbstractMachine;
use other_abstract::state::{AbsState, AbsStep};
use term_core::text::Memory;

/// What a path comes to on a machine that it fits.
pub fn replay(machine: &AbstractMachine, path: &Path) -> Result<ReplayEnd, Memory>
    requires made { IsMade machine.now }
    requires fits { PathFits machine.now path.now }
    ensures { IfOk result (λ end. (other : ReplayEnd) → end ≡ other ↔ ComesTo machine.now path.now other) }
{
    let begins = machine.starts(path.start, &path.pattern, &path.first)?;
    if !begins {
        return Ok(ReplayEnd::Broken { step: 0 });
    }
    let broken = first_broken(machine, &path.first, path.steps.as_slice())?;
    match broken {
        Some(step) => Ok(ReplayEnd::Broken { step }),
        None => {
            let end = judged(machine, path)?;
            Ok(end)
        }
    }
}

/// The number of the first of these steps that the machine does not allow, counted from 1.
fn first_broken(
    machine: &AbstractMachine,
    first: &AbsState,
    steps: &[AbsStep],
) -> Result<Option<u32>, Memory>
    requires made { IsMade machine.now }
    requires fits { (k : _) (step : AbsStep) → slice_get steps.now k ≡ Some step → StepFits machine.now step }
    ensures { IfOk result (λ found. BrokenIs machine.now first.now.values steps.now found) }
{
    let mut before = first;
    let mut number: u32 = 0;
    for step in steps {
        if number == u32::MAX {
            return Err(Memory);
        }
        number += 1;
        let allowed = machine.allows(before, step)?;
        if !allowed {
            return Ok(Some(number));
        }
        before = &step.to;
    }
    Ok(None)
}

/// The state after these steps.
fn last_state<'a>(first: &'a AbsState, steps: &'a [AbsStep]) -> &'a AbsState
    ensures { result.now.values ≡ state_after first.now.values steps.now }
{
    if steps.is_empty() {
        return first;
    }
    &steps[steps.len() - 1].to
}

/// The number of the first formula that a state violates.
fn first_violated(machine: &AbstractMachine, state: &AbsState) -> Result<Option<u32>, Memory>
    requires made { IsMade machine.now }
    ensures { IfOk result (λ found. ViolatedIs machine.now state.now.values found) }
{
    for at in 0..machine.formulas().len() {
        let formula = number_of(at)?;
        let violated = machine.violates(state, formula)?;
        if violated {
            return Ok(Some(formula));
        }
    }
    Ok(None)
}

/// A number of a formula or a step.
fn number_of(at: usize) -> Result<u32, Memory>
    ensures { IfOk result (λ number. number ≡ at) }
{
    if at > u32::MAX as usize {
        return Err(Memory);
    }
    Ok(at as u32)
}

/// Whether a path has no steps and a piece of its start may be false.
fn start_faults(machine: &AbstractMachine, path: &Path) -> Result<bool, Memory>
    requires made { IsMade machine.now }
    requires start { path.now.start < length machine.now.machine.starts }
    ensures { IfOk result (λ faults. IsTrue faults ↔ StartFaults machine.now path.now) }
{
    if !path.steps.as_slice().is_empty() {
        return Ok(false);
    }
    let faults = machine.start_faults(path.start, &path.pattern)?;
    Ok(faults)
}

/// What a run whose last state violates no formula comes to: its start is held against its pieces, where
/// it has no steps.
fn judged_start(machine: &AbstractMachine, path: &Path) -> Result<ReplayEnd, Memory>
    requires made { IsMade machine.now }
    requires start { path.now.start < length machine.now.machine.starts }
    requires clean { IsClean machine.now (last_state path.now) }
    ensures { IfOk result (λ end. IsJudged machine.now path.now end) }
{
    let faults = start_faults(machine, path)?;
    if !faults {
        return Ok(ReplayEnd::Clean);
    }
    let formula = number_of(machine.formulas().len())?;
    Ok(ReplayEnd::Violates(formula))
}

/// What a run comes to: its last state is held against the formulas in order, and then its start.
fn judged(machine: &AbstractMachine, path: &Path) -> Result<ReplayEnd, Memory>
    requires made { IsMade machine.now }
    requires start { path.now.start < length machine.now.machine.starts }
    ensures { IfOk result (λ end. IsJudged machine.now path.now end) }
{
    let last = last_state(&path.first, path.steps.as_slice());
    let violated = first_violated(machine, last)?;
    match violated {
        Some(formula) => Ok(ReplayEnd::Violates(formula)),
        None => {
            let end = judged_start(machine, path)?;
            Ok(end)
        }
    }
}
