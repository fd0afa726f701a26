//! Values of the cells of a window.

ghost use Rattle.std.specs.Prelude.{◌≡◌};
ghost use Rattle.other_abstract.specs.Windows.{truth, number, same_value};

use crate::node::AbsNode;

/// A value of a cell of a window. Members of a kind are numbered from 0.
#[derive(Debug, Clone, Copy, PartialEq, Eq)]
pub enum AbsValue {
    Undefined,
    Truth(bool),
    Number(i16),
    Member { kind: u32, index: u8 },
    Node(AbsNode),
}

impl AbsValue {
    /// Whether the value is true; one that is no truth value counts as false.
    pub fn is_true(self) -> bool
        ensures { result ≡ truth self }
    {
        match self {
            AbsValue::Truth(b) => b,
            _ => false,
        }
    }

    /// The number; a value that is none counts as 0.
    pub fn number(self) -> i16
        ensures { result ≡ number self }
    {
        match self {
            AbsValue::Number(z) => z,
            _ => 0,
        }
    }

    /// Whether two values are one, where Other counts as one node.
    pub fn is_same(self, other: AbsValue) -> bool
        ensures { result ≡ same_value self other }
    {
        match (self, other) {
            (AbsValue::Undefined, AbsValue::Undefined) => true,
            (AbsValue::Truth(a), AbsValue::Truth(b)) => a == b,
            (AbsValue::Number(a), AbsValue::Number(b)) => a == b,
            (
                AbsValue::Member { kind, index },
                AbsValue::Member {
                    kind: other,
                    index: at,
                },
            ) => kind == other && index == at,
            (AbsValue::Node(a), AbsValue::Node(b)) => a.is_same(b),
            _ => false,
        }
    }
}
