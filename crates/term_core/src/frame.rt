//! Frames: the nodes of the variables of a term, from variable 0 on.

ghost use Rattle.std.specs.Prelude.{◌≡◌, ◌-◌, ◌<◌, [], ◌∷◌, ◌++◌, take, length, IfOk};
ghost use Rattle.term_core.specs.Meaning.{bound_node};

use crate::text::Memory;
use crate::value::Value;
use std::alloc::Global;
use std::marker::Model;

/// The nodes of the variables that are bound, with room for more. Contracts see `Bindings`: these
/// nodes, and for how many there is room in all.
#[derive(Debug, Drop)]
pub struct Frame {
    nodes: Vec<u32>,
}

impl Model for Frame {
    ghost use Rattle.std.specs.Prelude.{vec_capacity};
    ghost use Rattle.term_core.specs.Views.{Bindings};

    ghost Value = { Bindings };

    ghost view = { λ f. record { nodes = f.nodes.items; room = vec_capacity f.nodes } };
}

impl Frame {
    /// A frame that binds no variable, with room for so many.
    pub fn make(alloc: Global, depth: u32) -> Result<Frame, Memory>
        ensures nodes { IfOk result (λ f. f.nodes ≡ []) }
        ensures room { IfOk result (λ f. f.room ≡ depth) }
    {
        let nodes = Vec::with_capacity(alloc, depth as usize)?;
        Ok(Frame { nodes })
    }

    /// The nodes of the variables, from variable 0 on.
    pub fn nodes(&self) -> &[u32]
        ensures { result.now ≡ self.now.nodes }
    {
        self.nodes.as_slice()
    }

    /// How many variables more there is room for.
    pub fn spare(&self) -> usize
        ensures { result ≡ self.now.room - length self.now.nodes }
    {
        self.nodes.capacity() - self.nodes.len()
    }

    /// The node of a variable; one that is not bound is undefined.
    pub fn value(&self, number: u32) -> Value
        ensures { result ≡ bound_node self.now.nodes number }
    {
        let nodes = self.nodes.as_slice();
        let at = number as usize;
        if at < nodes.len() {
            Value::Node(nodes[at])
        } else {
            Value::Undefined
        }
    }

    /// Binds the next variable. It takes no memory.
    pub fn push(&mut self, node: u32)
        requires { length self.old.nodes < self.old.room }
        ensures nodes { self.new.nodes ≡ self.old.nodes ++ node ∷ [] }
        ensures room { self.new.room ≡ self.old.room }
    {
        self.nodes.push_reserved(node);
    }

    /// Takes the last variable out. It takes no memory.
    pub fn pop(&mut self)
        requires { 0 < length self.old.nodes }
        ensures nodes { self.new.nodes ≡ take (length self.old.nodes - 1) self.old.nodes }
        ensures room { self.new.room ≡ self.old.room }
    {
        self.nodes.pop();
    }
}
