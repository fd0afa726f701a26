//! What fires in a step, or starts.

#![tactic(auto, using(crate::proofs::ChoiceLemmas::choosing))]

ghost use Rattle.std.specs.Prelude.{◌≡◌, ◌++◌, ◌<◌, ◌≤◌, length, All, Some, slice_get, IfOk, OnOk};
ghost use Rattle.term_core.specs.declared.machine.TermRule.{TermRule as RuleOf};
ghost use Rattle.other_abstract.specs.Machines.{fired_of};
ghost use Rattle.other_abstract.specs.Making.{IsMade};
ghost use Rattle.bit_layout.specs.declared.choice.Choice.{Choice as ChoiceOf};
ghost use Rattle.bit_layout.specs.Choices.{choices_with, choices_of, step_choices, start_choices, most_fired};

use crate::laws::choices_are_listed;
use circuit_core::Memory;
use other_abstract::machine::AbstractMachine;
use other_abstract::node::AbsNode;
use other_abstract::state::Pattern;
use sqlite_items::Items;
use std::alloc::Global;
use term_core::machine::TermRule;

/// A rule or a start by its number, and a pattern of it.
#[derive(Drop)]
pub struct Choice {
    pub number: u32,
    pub pattern: Items<AbsNode>,
}

/// How many rules there are. More than 2^32 - 1 are answered as want of memory.
fn count(rules: &[TermRule]) -> Result<u32, Memory>
    ensures { IfOk result (λ n. n ≡ length rules.now) }
{
    match u32::try_from(rules.len()) {
        Ok(n) => Ok(n),
        Err(_) => Err(Memory),
    }
}

/// Adds the choices of one rule or start, whose patterns these are.
fn add_choices(
    alloc: Global,
    out: &mut Vec<Choice>,
    number: u32,
    patterns: &[Pattern],
) -> Result<(), Memory>
    ensures { OnOk result (out.new.items ≡ out.old.items ++ choices_with number patterns.now) }
{
    for pattern in patterns {
        let nodes = Vec::from_slice(alloc, pattern.nodes())?;
        out.push(Choice {
            number,
            pattern: Items::from_vec(nodes),
        })?;
    }
    Ok(())
}

/// Adds the choices of one rule.
fn add_rule(
    alloc: Global,
    machine: &AbstractMachine,
    out: &mut Vec<Choice>,
    number: u32,
) -> Result<(), Memory>
    requires made { IsMade machine.now }
    requires rule { number < length machine.now.machine.rules }
    ensures { OnOk result ((r : RuleOf) → slice_get machine.now.machine.rules number ≡ Some r
        → out.new.items ≡ out.old.items ++ choices_of machine.now.kept number r) }
{
    let patterns = match machine.patterns(alloc, number) {
        Ok(patterns) => patterns,
        Err(_) => return Err(Memory),
    };
    add_choices(alloc, out, number, patterns.as_slice())?;
    Ok(())
}

/// Adds the choices of one start.
fn add_start(
    alloc: Global,
    machine: &AbstractMachine,
    out: &mut Vec<Choice>,
    number: u32,
) -> Result<(), Memory>
    requires made { IsMade machine.now }
    requires start { number < length machine.now.machine.starts }
    ensures { OnOk result ((r : RuleOf) → slice_get machine.now.machine.starts number ≡ Some r
        → out.new.items ≡ out.old.items ++ choices_of machine.now.kept number r) }
{
    let patterns = match machine.start_patterns(alloc, number) {
        Ok(patterns) => patterns,
        Err(_) => return Err(Memory),
    };
    add_choices(alloc, out, number, patterns.as_slice())?;
    Ok(())
}

/// The choices of steps: each rule with each of its patterns, in order.
pub fn step_choices(alloc: Global, machine: &AbstractMachine) -> Result<Vec<Choice>, Memory>
    requires { IsMade machine.now }
    ensures choices { IfOk result (λ out. out.items ≡ step_choices machine.now) }
    ensures short { IfOk result (λ out. All (λ (c : ChoiceOf). length c.pattern ≤ 3) out.items) }
{
    choices_are_listed();
    let mut out = Vec::new(alloc);
    let count = count(machine.machine().rules.as_slice())?;
    for number in 0..count {
        add_rule(alloc, machine, &mut out, number)?;
    }
    Ok(out)
}

/// The choices of starts: each start with each of its patterns, in order.
pub fn start_choices(alloc: Global, machine: &AbstractMachine) -> Result<Vec<Choice>, Memory>
    requires { IsMade machine.now }
    ensures choices { IfOk result (λ out. out.items ≡ start_choices machine.now) }
    ensures short { IfOk result (λ out. All (λ (c : ChoiceOf). length c.pattern ≤ 3) out.items) }
{
    choices_are_listed();
    let mut out = Vec::new(alloc);
    let count = count(machine.machine().starts.as_slice())?;
    for number in 0..count {
        add_start(alloc, machine, &mut out, number)?;
    }
    Ok(out)
}

/// How many fired nodes a pattern uses.
pub fn fired_of(pattern: &[AbsNode]) -> u8
    ensures { result ≡ fired_of pattern.now }
{
    let mut fired: u8 = 0;
    for node in pattern {
        if let AbsNode::Fired(k) = node {
            fired = fired.max(*k);
        }
    }
    fired
}

/// The most fired nodes that one of these choices uses.
pub fn most_fired(choices: &[Choice]) -> u8
    ensures { result ≡ most_fired choices.now }
{
    let mut most: u8 = 0;
    for choice in choices {
        most = most.max(fired_of(choice.pattern.as_slice()));
    }
    most
}
