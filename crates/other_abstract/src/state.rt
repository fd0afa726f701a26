//! States of windows, patterns and steps.

ghost use Rattle.std.specs.Prelude.{◌≡◌, ◌≤◌, length};

use crate::node::AbsNode;
use crate::value::AbsValue;
use smallvec::SmallVec;
use sqlite_items::Items;
use std::alloc::Global;
use std::marker::Model;

/// A state of a window: a value for each cell, family by family in the order of the machine's
/// families, and within a family by its node indices, the first slowest and kept nodes before fired
/// ones.
#[derive(Drop)]
pub struct AbsState {
    pub values: Items<AbsValue>,
}

/// A node for each node parameter of a rule or start. Contracts see the list of them.
#[derive(Drop)]
pub struct Pattern {
    nodes: SmallVec<AbsNode, 3>,
}

impl Model for Pattern {
    ghost use Rattle.std.specs.Prelude.{List};
    ghost use Rattle.other_abstract.specs.declared.node.AbsNode.{AbsNode};

    ghost Value = { List AbsNode };

    ghost view = { λ p. p.nodes.items };
}

impl Pattern {
    /// The pattern of these nodes in order. It takes no memory.
    pub fn of(alloc: Global, nodes: &[AbsNode]) -> Pattern
        requires { length nodes.now ≤ 3 }
        ensures { result ≡ nodes.now }
    {
        let mut held: SmallVec<AbsNode, 3> = SmallVec::new(alloc);
        for node in nodes {
            held.push_reserved(*node);
        }
        Pattern { nodes: held }
    }

    /// The nodes.
    pub fn nodes(&self) -> &[AbsNode]
        ensures { result.now ≡ self.now }
    {
        self.nodes.as_slice()
    }
}

/// A step: a rule by its number, the pattern under which it fires, the state of the window of that
/// pattern in which it fires, and the kept state after it.
#[derive(Drop)]
pub struct AbsStep {
    pub rule: u32,
    pub pattern: Pattern,
    pub wide: AbsState,
    pub to: AbsState,
}
