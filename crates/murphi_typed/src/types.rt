//! Types by parts, and the kinds of members.

ghost use Rattle.std.specs.Prelude.{◌≡◌};
ghost use Rattle.murphi_typed.specs.Values.{sort_of, is_value, may_hold, cleared_value};

use murphi_ast::text::Text;
use sqlite_items::{Boxed, Items};
use term_core::value::{Sort, Value};

/// A simple type. The bounds of a range belong to it. A kind goes by its number in the text, from 0,
/// and `count` is the number of its members. `Node` is the scalarset whose size is left open.
#[derive(Debug, Clone, Copy, PartialEq, Eq)]
pub enum Simple {
    Truth,
    Range { low: i16, high: i16 },
    /// An enum.
    Listed { kind: u32, count: u16 },
    /// A scalarset of the written size.
    Scalarset { kind: u32, count: u16 },
    Node,
}

impl Simple {
    /// What the cells of this type hold besides undefined.
    pub fn sort(self) -> Sort
        ensures { result ≡ sort_of self }
    {
        match self {
            Simple::Truth => Sort::Truth,
            Simple::Range { low, high } => Sort::Range { low, high },
            Simple::Listed { kind, count } => Sort::Members { kind, count },
            Simple::Scalarset { kind, count } => Sort::Members { kind, count },
            Simple::Node => Sort::Node,
        }
    }

    /// Whether a value is one of this type, with so many nodes. Undefined is none.
    pub fn has(self, nodes: u32, value: Value) -> bool
        ensures { result ≡ is_value nodes self value }
    {
        self.sort().has(nodes, value)
    }

    /// Whether a cell of this type may have a value: undefined, or one of the type.
    pub fn may_hold(self, nodes: u32, value: Value) -> bool
        ensures { result ≡ may_hold nodes self value }
    {
        match value {
            Value::Undefined => true,
            _ => self.has(nodes, value),
        }
    }

    /// What `clear` gives a cell of this type.
    pub fn cleared(self) -> Value
        ensures { result ≡ cleared_value self }
    {
        match self {
            Simple::Truth => Value::Truth(false),
            Simple::Range { low, .. } => Value::Number(low),
            Simple::Listed { kind, .. } => Value::Member { kind, index: 0 },
            Simple::Scalarset { .. } | Simple::Node => Value::Undefined,
        }
    }
}

/// A type, simple or compound. A record with the same fields in another order is the same type.
#[cycle(types)]
#[derive(Drop)]
pub enum AnyType {
    Simple(Simple),
    Record { fields: Items<Field> },
    Array { index: Simple, item: Boxed<AnyType> },
}

/// A field of a record.
#[cycle(types)]
#[derive(Drop)]
pub struct Field {
    pub name: Text,
    pub of: AnyType,
}

/// What the members of a kind are called: the names of an enum as they are written; or the name of the
/// declaration that writes a scalarset directly, if there is one, and how many members it has.
#[derive(Drop)]
pub enum Kind {
    Listed { names: Items<Text> },
    Scalarset { name: Option<Text>, count: u16 },
}
