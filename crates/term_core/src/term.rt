//! Terms, which have a value in every state: a part of a wrong kind counts as false, as 0 or as an
//! undefined index. A variable is the number of a bound node, from 0, and a quantifier binds the
//! next number.
ghost use Rattle.std.specs.Prelude.{◌≡◌, IfOk};

use crate::substitute::same;
use crate::text::Memory;
use crate::value::{ArithOp, Value};
use sqlite_items::{Boxed, Items};
use std::alloc::Global;

/// A term. `Read` is the cell of a family at the nodes that the terms of `at` stand for, and
/// `Quantified` asks its body for all nodes, or for one of them where `all` is false.
#[derive(Drop)]
pub enum Term {
    Known(Value),
    Var(u32),
    Read {
        family: u32,
        at: Items<Term>,
    },
    Not(Boxed<Term>),
    And(Items<Term>),
    Or(Items<Term>),
    If {
        test: Boxed<Term>,
        yes: Boxed<Term>,
        no: Boxed<Term>,
    },
    Same {
        left: Boxed<Term>,
        right: Boxed<Term>,
    },
    Less {
        left: Boxed<Term>,
        right: Boxed<Term>,
    },
    Arith {
        op: ArithOp,
        left: Boxed<Term>,
        right: Boxed<Term>,
    },
    Quantified {
        all: bool,
        body: Boxed<Term>,
    },
}

impl Term {
    /// A term equal to this one.
    pub fn copy(&self, alloc: Global) -> Result<Term, Memory>
        ensures { IfOk result (λ t. t ≡ self.now) }
    {
        let out = same(alloc, self)?;
        Ok(out)
    }
}

/// Terms equal to these.
pub fn copy_terms(alloc: Global, all: &[Term]) -> Result<Items<Term>, Memory>
    ensures { IfOk result (λ out. out ≡ all.now) }
{
    let mut out = Items::new(alloc);
    for one in all {
        let copied = one.copy(alloc)?;
        out.push(copied)?;
    }
    Ok(out)
}
