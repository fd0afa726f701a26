//! Paths of the machine of one flag, replayed: each end that a path can come to.
#![tactic(auto, using(crate::proofs::FlagPaths::paths))]

ghost use Rattle.std.specs.Prelude.{IfOk};
ghost use Rattle.std.specs.List.{All};
ghost use Rattle.abstract_rows.specs.Flag.{IsFlag};
ghost use Rattle.abstract_replay.specs.Paths.{StepFits};

use crate::flag::{made, state};
use abstract_replay::{Path, ReplayEnd, replay};
use other_abstract::machine::AbstractMachine;
use other_abstract::node::AbsNode;
use other_abstract::state::{AbsStep, Pattern};
use sqlite_items::Items;
use std::alloc::Global;
use std::process::Abort;
use std::test::Fail;
use term_core::text::Memory;

/// A firing by a node that is not kept, from one value of the flag to another.
fn firing(alloc: Global, m: &AbstractMachine, from: bool, to: bool) -> Result<AbsStep, Memory>
    requires { IsFlag m.now }
    ensures { IfOk result (λ step. StepFits m.now step) }
{
    let wide = state(alloc, from)?;
    let to = state(alloc, to)?;
    let pattern = Pattern::of(alloc, &[AbsNode::Fired(1)]);
    Ok(AbsStep {
        rule: 0,
        pattern,
        wide,
        to,
    })
}

/// The steps that set the flag, or clear it, in turn.
fn steps(
    alloc: Global,
    m: &AbstractMachine,
    from: bool,
    to: &[bool],
) -> Result<Items<AbsStep>, Memory>
    requires { IsFlag m.now }
    ensures { IfOk result (λ steps. All (StepFits m.now) steps) }
{
    let mut steps = Items::new(alloc);
    let mut before = from;
    for next in to {
        steps.push(firing(alloc, m, before, *next)?)?;
        before = *next;
    }
    Ok(steps)
}

/// What a path comes to that starts with this value of the flag and then has these.
fn end(alloc: Global, m: &AbstractMachine, first: bool, then: &[bool]) -> Result<ReplayEnd, Memory>
    requires { IsFlag m.now }
{
    let path = Path {
        start: 0,
        pattern: Pattern::of(alloc, &[]),
        first: state(alloc, first)?,
        steps: steps(alloc, m, first, then)?,
    };
    let end = replay(m, &path)?;
    Ok(end)
}

/// The number of the step at which a path is broken.
fn broken(end: &ReplayEnd) -> Option<u32> {
    match end {
        ReplayEnd::Broken { step } => Some(*step),
        _ => None,
    }
}

/// The start alone violates nothing; with the flag set it is no start.
#[test]
fn starts_are_replayed(rt: HostRuntime) -> Result<(), Fail> {
    let alloc = rt.alloc();
    let m = made(alloc)?;
    assert!(rt; matches!(end(alloc, &m, false, &[])?, ReplayEnd::Clean));
    assert_eq!(rt; broken(&end(alloc, &m, true, &[])?), Some(0));
    Ok(())
}

/// A firing sets the flag, and that violates the one formula.
#[test]
fn violations_are_replayed(rt: HostRuntime) -> Result<(), Fail> {
    let alloc = rt.alloc();
    let m = made(alloc)?;
    assert!(rt; matches!(end(alloc, &m, false, &[true])?, ReplayEnd::Violates(0)));
    Ok(())
}

/// A firing that leaves the flag as it is, and one where the flag is set, are no steps; the first of
/// them is named.
#[test]
fn broken_steps_are_named(rt: HostRuntime) -> Result<(), Fail> {
    let alloc = rt.alloc();
    let m = made(alloc)?;
    assert_eq!(rt; broken(&end(alloc, &m, false, &[false])?), Some(1));
    assert_eq!(rt; broken(&end(alloc, &m, false, &[true, true])?), Some(2));
    assert_eq!(rt;
        broken(&end(alloc, &m, false, &[true, false, true])?),
        Some(2)
    );
    Ok(())
}
