//! What names stand for, and which are in scope.

ghost use Rattle.std.specs.Prelude.{◌≡◌, IfOk};

use crate::names::Names;
use murphi_ast::text::{Memory, Text};
use murphi_typed::expr::Root;
use murphi_typed::protocol::{Routine, Variable};
use murphi_typed::shared::Shared;
use murphi_typed::types::{AnyType, Kind, Simple};
use sqlite_items::Items;

/// What a name stands for.
#[derive(Drop)]
pub enum Meaning {
    /// Its declaration has a fault: what uses it has none for that.
    Refused,
    Constant(i16),
    TypeName(Shared<AnyType>),
    /// A global, a local, or a formal. A formal by value may not be written.
    Variable { root: Root, of: Shared<AnyType> },
    /// A parameter of a ruleset, or the variable of a quantifier or of a `for`, by its number from the
    /// outermost.
    Bound { number: u32, over: Simple },
    /// An enum name.
    Member { kind: u32, index: u8, count: u16 },
    /// A routine, by its number.
    Routine(u32),
}

/// A name with what it stands for.
#[derive(Drop)]
pub struct Entry {
    pub name: Text,
    pub what: Meaning,
}

/// What the text has declared for the whole of it so far: all names with all enum names, in the order of
/// their declarations, the kinds, the globals, and the routines with the weights of their bodies. It
/// grows from part to part, since an enum may be written in any type.
#[derive(Drop)]
pub struct Known {
    pub names: Names,
    pub kinds: Items<Kind>,
    pub globals: Items<Variable>,
    pub routines: Items<Shared<Routine>>,
    pub weights: Items<u64>,
}

/// Where a part stands: the names of the scopes around it within the whole text, the innermost last; how
/// many bound variables there are; whether it is in the body of a function; and, for the whole text, the
/// names of all its routines and the name that is given to the node type.
#[derive(Drop)]
pub struct Scope {
    pub inner: Items<Entry>,
    pub bound: u32,
    pub in_function: bool,
    pub routines: Items<Text>,
    pub node: Option<Text>,
}

impl Meaning {
    /// The same once more, with no copy of its type.
    pub fn share(&self) -> Result<Meaning, Memory>
        ensures { IfOk result (λ m. m ≡ self.now) }
    {
        match self {
            Meaning::Refused => Ok(Meaning::Refused),
            Meaning::Constant(number) => Ok(Meaning::Constant(*number)),
            Meaning::TypeName(of) => {
                let of = of.share()?;
                Ok(Meaning::TypeName(of))
            }
            Meaning::Variable { root, of } => {
                let of = of.share()?;
                Ok(Meaning::Variable { root: *root, of })
            }
            Meaning::Bound { number, over } => Ok(Meaning::Bound {
                number: *number,
                over: *over,
            }),
            Meaning::Member { kind, index, count } => Ok(Meaning::Member {
                kind: *kind,
                index: *index,
                count: *count,
            }),
            Meaning::Routine(number) => Ok(Meaning::Routine(*number)),
        }
    }
}
