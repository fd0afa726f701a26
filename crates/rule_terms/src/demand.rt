//! What a part demands so that it does not fault, as it is gathered: the tests and the variables around a
//! part stand once, over all that is demanded inside. Contracts see the list of demands.

#![tactic(auto, using(crate::proofs::DemandEquations::demanding))]

ghost use Rattle.std.specs.Prelude.{◌≡◌, ◌++◌, ◌∷◌, [], map, IfOk};
ghost use Rattle.rule_inline.specs.Demands.{demand, under_test, unless_left, binding};
ghost use Rattle.rule_terms.specs.Gathered.{seen_demands};

use crate::build::is_false;
use sqlite_items::Boxed;
use std::alloc::Global;
use term_core::term::Term;
use term_core::text::Memory;

/// What is demanded. A test or a term that says that a `return` was met is for frames of `frame` variables.
#[derive(Drop)]
pub enum Demands {
    Nothing,
    One(Term),
    Both {
        first: Boxed<Demands>,
        second: Boxed<Demands>,
    },
    /// Where a test is true.
    Under {
        frame: u32,
        test: Term,
        inner: Boxed<Demands>,
    },
    /// Where no `return` was met before.
    Unless {
        frame: u32,
        left: Term,
        inner: Boxed<Demands>,
    },
    /// Inside one more variable over all nodes.
    Binding(Boxed<Demands>),
}

/// What is demanded by one part after another.
pub fn both(alloc: Global, first: Demands, second: Demands) -> Result<Demands, Memory>
    ensures { IfOk result (λ d. seen_demands d ≡ seen_demands first ++ seen_demands second) }
{
    match first {
        Demands::Nothing => Ok(second),
        first => {
            let d = both_of(alloc, first, second)?;
            Ok(d)
        }
    }
}

fn both_of(alloc: Global, first: Demands, second: Demands) -> Result<Demands, Memory>
    ensures { IfOk result (λ d. seen_demands d ≡ seen_demands first ++ seen_demands second) }
{
    match second {
        Demands::Nothing => Ok(first),
        second => {
            let first = Boxed::new(alloc, first)?;
            let second = Boxed::new(alloc, second)?;
            Ok(Demands::Both { first, second })
        }
    }
}

/// What is demanded, and then one term more.
pub fn and_one(alloc: Global, first: Demands, must: Term) -> Result<Demands, Memory>
    ensures { IfOk result (λ d. seen_demands d ≡ seen_demands first ++ demand must ∷ []) }
{
    let d = both(alloc, first, Demands::One(must))?;
    Ok(d)
}

/// What is demanded where a test is true.
pub fn under(alloc: Global, frame: u32, test: Term, inner: Demands) -> Result<Demands, Memory>
    ensures { IfOk result (λ d. seen_demands d ≡ under_test frame test (seen_demands inner)) }
{
    match inner {
        Demands::Nothing => Ok(Demands::Nothing),
        inner => {
            let inner = Boxed::new(alloc, inner)?;
            Ok(Demands::Under { frame, test, inner })
        }
    }
}

/// What is demanded where no `return` was met before.
pub fn unless(alloc: Global, frame: u32, left: &Term, inner: Demands) -> Result<Demands, Memory>
    ensures { IfOk result (λ d. seen_demands d ≡ unless_left frame left.now (seen_demands inner)) }
{
    if is_false(left) {
        return Ok(inner);
    }
    let left = left.copy(alloc)?;
    let inner = Boxed::new(alloc, inner)?;
    Ok(Demands::Unless { frame, left, inner })
}

/// What is demanded inside one more variable over all nodes.
pub fn binding(alloc: Global, inner: Demands) -> Result<Demands, Memory>
    ensures { IfOk result (λ d. seen_demands d ≡ binding (seen_demands inner)) }
{
    match inner {
        Demands::Nothing => Ok(Demands::Nothing),
        inner => {
            let inner = Boxed::new(alloc, inner)?;
            Ok(Demands::Binding(inner))
        }
    }
}
