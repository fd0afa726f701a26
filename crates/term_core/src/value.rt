//! Values of terms and cells, and the sorts of values that cells hold.

ghost use Rattle.std.specs.Prelude.{◌≡◌, ◌↔◌, IsTrue, IfOk};
ghost use Rattle.term_core.specs.declared.value.Value.TheVariants.{Number};
ghost use Rattle.term_core.specs.Nodes.{is_node};
ghost use Rattle.term_core.specs.Values.{truth, number, same_value, is_of_sort, arith};

use crate::text::Memory;
use std::alloc::Global;

/// The value of a term or of a cell. Members of a kind are numbered from 0, and with N nodes a node
/// is a number from 1 to N.
#[derive(Debug, Clone, Copy, PartialEq, Eq)]
pub enum Value {
    Undefined,
    Truth(bool),
    Number(i16),
    Member { kind: u32, index: u8 },
    Node(u32),
}

/// What the cells of a family hold besides undefined. The bounds of a range belong to it, and
/// `count` is the number of members of a kind.
#[derive(Debug, Drop, PartialEq, Eq)]
pub enum Sort {
    Truth,
    Range { low: i16, high: i16 },
    Members { kind: u32, count: u16 },
    Node,
}

/// An operator on numbers.
#[derive(Debug, Clone, Copy, PartialEq, Eq)]
pub enum ArithOp {
    Add,
    Subtract,
    Times,
    Divide,
    Modulo,
}

impl Value {
    /// Whether the value is true; one that is no truth value counts as false.
    pub fn is_true(self) -> bool
        ensures { result ≡ truth self }
    {
        match self {
            Value::Truth(b) => b,
            _ => false,
        }
    }

    /// The number; a value that is none counts as 0.
    pub fn number(self) -> i16
        ensures { result ≡ number self }
    {
        match self {
            Value::Number(z) => z,
            _ => 0,
        }
    }

    /// Whether two values are one. Undefined is the same as undefined.
    pub fn is_same(self, other: Value) -> bool
        ensures value { result ≡ same_value self other }
        ensures same { IsTrue result ↔ (self ≡ other) }
    {
        match (self, other) {
            (Value::Undefined, Value::Undefined) => true,
            (Value::Truth(a), Value::Truth(b)) => a == b,
            (Value::Number(a), Value::Number(b)) => a == b,
            (
                Value::Member { kind, index },
                Value::Member {
                    kind: other,
                    index: at,
                },
            ) => kind == other && index == at,
            (Value::Node(a), Value::Node(b)) => a == b,
            _ => false,
        }
    }
}

/// Whether this is one of so many nodes.
pub fn is_node(nodes: u32, node: u32) -> bool
    ensures { result ≡ is_node nodes node }
{
    1 <= node && node <= nodes
}

impl Sort {
    /// A sort equal to this one.
    pub fn copy(&self, _alloc: Global) -> Result<Sort, Memory>
        ensures { IfOk result (λ s. s ≡ self.now) }
    {
        match self {
            Sort::Truth => Ok(Sort::Truth),
            Sort::Range { low, high } => Ok(Sort::Range {
                low: *low,
                high: *high,
            }),
            Sort::Members { kind, count } => Ok(Sort::Members {
                kind: *kind,
                count: *count,
            }),
            Sort::Node => Ok(Sort::Node),
        }
    }

    /// Whether a value is of this sort, with so many nodes. Undefined is of none.
    pub fn has(&self, nodes: u32, value: Value) -> bool
        ensures { result ≡ is_of_sort nodes self.now value }
    {
        match (self, value) {
            (Sort::Truth, Value::Truth(_)) => true,
            (Sort::Range { low, high }, Value::Number(z)) => *low <= z && z <= *high,
            (Sort::Members { kind, count }, Value::Member { kind: other, index }) => {
                *kind == other && u16::from(index) < *count
            }
            (Sort::Node, Value::Node(node)) => is_node(nodes, node),
            _ => false,
        }
    }
}

impl ArithOp {
    /// What the operator makes of two numbers: 0 where the divisor is 0 and where the result would
    /// pass the range of numbers. A quotient goes toward 0.
    pub fn apply(self, left: i16, right: i16) -> i16
        ensures { result ≡ arith self left right }
    {
        let result = match self {
            ArithOp::Add => left.checked_add(right),
            ArithOp::Subtract => left.checked_sub(right),
            ArithOp::Times => left.checked_mul(right),
            ArithOp::Divide => left.checked_div(right),
            ArithOp::Modulo => left.checked_rem(right),
        };
        result.unwrap_or(0)
    }

    /// The same of two values, which count as 0 where they are no numbers.
    pub fn value(self, left: Value, right: Value) -> Value
        ensures { result ≡ Number (arith self (number left) (number right)) }
    {
        Value::Number(self.apply(left.number(), right.number()))
    }
}
