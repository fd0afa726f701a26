//! The patterns of rules and starts.

#![tactic(auto, using(crate::proofs::ListLemmas::listing))]

ghost use Rattle.std.specs.Prelude.{◌≡◌, ◌+◌, ◌<◌, ◌≤◌, [], ◌∷◌, ◌++◌, max, suc, length, Some, slice_get, IfOk, OnOk};
ghost use Rattle.std.specs.List.{flat_map};
ghost use Rattle.term_core.specs.declared.machine.TermRule.{TermRule};
ghost use Rattle.term_core.specs.Nodes.{nodes};
ghost use Rattle.term_core.specs.Firing.{node_parameters};
ghost use Rattle.other_abstract.specs.declared.node.AbsNode.TheVariants.{Kept, Fired};
ghost use Rattle.other_abstract.specs.Patterns.{patterns_of, patterns_after};
ghost use Rattle.other_abstract.specs.Making.{IsMade};

use crate::machine::AbstractMachine;
use crate::making::node_parameters;
use crate::node::AbsNode;
use crate::state::Pattern;
use sqlite_items::Items;
use std::alloc::Global;
use term_core::machine::TermRule;
use term_core::text::Memory;

impl AbstractMachine {
    /// The patterns of a rule, each once and no others, as `patterns_are_listed` says.
    pub fn patterns(&self, alloc: Global, rule: u32) -> Result<Vec<Pattern>, Memory>
        requires made { IsMade self.now }
        requires rule { rule < length self.now.machine.rules }
        ensures { IfOk result (λ out. (r : TermRule) → slice_get self.now.machine.rules rule ≡ Some r → out.items
            ≡ patterns_of self.now.kept r) }
    {
        let out = list_patterns(
            alloc,
            self.kept,
            &self.machine.rules.as_slice()[rule as usize],
        )?;
        Ok(out)
    }

    /// The patterns of a start, each once and no others, as `patterns_are_listed` says.
    pub fn start_patterns(&self, alloc: Global, start: u32) -> Result<Vec<Pattern>, Memory>
        requires made { IsMade self.now }
        requires start { start < length self.now.machine.starts }
        ensures { IfOk result (λ out. (r : TermRule) → slice_get self.now.machine.starts start ≡ Some r → out.items
            ≡ patterns_of self.now.kept r) }
    {
        let out = list_patterns(
            alloc,
            self.kept,
            &self.machine.starts.as_slice()[start as usize],
        )?;
        Ok(out)
    }
}

/// The patterns of a rule or start with so many kept nodes.
fn list_patterns(alloc: Global, kept: u8, rule: &TermRule) -> Result<Vec<Pattern>, Memory>
    requires { node_parameters rule.now ≤ 3 }
    ensures { IfOk result (λ out. out.items ≡ patterns_of kept rule.now) }
{
    let mut front = Items::new(alloc);
    let mut out = Vec::new(alloc);
    let count = node_parameters(rule);
    add_patterns(alloc, kept, 0, count, &mut front, &mut out)?;
    Ok(out)
}

/// Adds the patterns that begin with the nodes so far and have so many more, where so many fired nodes
/// have been used.
#[cycle(patterns)]
fn add_patterns(
    alloc: Global,
    kept: u8,
    fired: u8,
    left: u64,
    front: &mut Items<AbsNode>,
    out: &mut Vec<Pattern>,
) -> Result<(), Memory>
    requires room { length front.old + left ≤ 3 }
    requires used { fired + left ≤ 3 }
    ensures out { OnOk result (out.new.items ≡ out.old.items ++ patterns_after kept fired left front.old) }
    ensures front { OnOk result (front.new ≡ front.old) }
{
    if left == 0 {
        out.push(Pattern::of(alloc, front.as_slice()))?;
        Ok(())
    } else {
        add_kept(alloc, kept, fired, left - 1, front, out)?;
        add_fired(alloc, kept, fired, left - 1, front, out)?;
        Ok(())
    }
}

/// Adds those whose next node is a kept one.
#[cycle(patterns)]
fn add_kept(
    alloc: Global,
    kept: u8,
    fired: u8,
    left: u64,
    front: &mut Items<AbsNode>,
    out: &mut Vec<Pattern>,
) -> Result<(), Memory>
    requires room { length front.old + (left + 1) ≤ 3 }
    requires used { fired + (left + 1) ≤ 3 }
    ensures out { OnOk result (out.new.items ≡ out.old.items
        ++ flat_map (λ k. patterns_after kept fired left (front.old ++ Kept k ∷ [])) (nodes kept)) }
    ensures front { OnOk result (front.new ≡ front.old) }
{
    for node in 0..kept {
        front.push(AbsNode::Kept(node + 1))?;
        add_patterns(alloc, kept, fired, left, front, out)?;
        front.pop();
    }
    Ok(())
}

/// Adds those whose next node is a fired one, used before or the next.
#[cycle(patterns)]
fn add_fired(
    alloc: Global,
    kept: u8,
    fired: u8,
    left: u64,
    front: &mut Items<AbsNode>,
    out: &mut Vec<Pattern>,
) -> Result<(), Memory>
    requires room { length front.old + (left + 1) ≤ 3 }
    requires used { fired + (left + 1) ≤ 3 }
    ensures out { OnOk result (out.new.items ≡ out.old.items
        ++ flat_map (λ k. patterns_after kept (max fired k) left (front.old ++ Fired k ∷ [])) (nodes (suc fired))) }
    ensures front { OnOk result (front.new ≡ front.old) }
{
    let count = fired + 1;
    for node in 0..count {
        front.push(AbsNode::Fired(node + 1))?;
        add_patterns(alloc, kept, fired.max(node + 1), left, front, out)?;
        front.pop();
    }
    Ok(())
}
