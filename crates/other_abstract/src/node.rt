//! Nodes of a window.

ghost use Rattle.std.specs.Prelude.{◌≡◌};
ghost use Rattle.other_abstract.specs.Windows.{same_node};

/// A node of a window, or any other node. Kept and fired nodes are numbered from 1.
#[derive(Debug, Clone, Copy, PartialEq, Eq, Default)]
pub enum AbsNode {
    Kept(u8),
    Fired(u8),
    /// Any node that is none of the window's.
    #[default]
    Other,
}

impl AbsNode {
    /// Whether two names of nodes are one.
    pub fn is_same(self, other: AbsNode) -> bool
        ensures { result ≡ same_node self other }
    {
        match (self, other) {
            (AbsNode::Kept(a), AbsNode::Kept(b)) => a == b,
            (AbsNode::Fired(a), AbsNode::Fired(b)) => a == b,
            (AbsNode::Other, AbsNode::Other) => true,
            _ => false,
        }
    }
}
