//! What the parts of a body make of the terms, one layer over another. A layer holds what it is made of, so
//! that a family that a part does not change is not copied; `now` works out the term of one slot. Contracts
//! see a layer as the change that it stands for, by `specs/Layers`.

use crate::place::Spot;
use murphi_typed::types::AnyType;
use sqlite_items::Items;
use std::rc::Rc;
use term_core::term::Term;

/// What a part of a body makes of the terms before it. `frame` says how many variables are bound.
#[cycle(layers)]
#[derive(Drop)]
pub enum Layer {
    /// Before anything is done.
    First {
        frame: u32,
    },
    /// The terms under one more variable.
    Under {
        frame: u32,
        before: Rc<Layer>,
    },
    /// Nothing is changed.
    Nothing {
        before: Rc<Layer>,
    },
    /// One part after another.
    Then {
        first: Rc<Layer>,
        second: Rc<Layer>,
    },
    /// The cells under a place have new values.
    Written {
        frame: u32,
        before: Rc<Layer>,
        spot: Spot,
        new: Shown,
    },
    /// A `return`, with the result in a function.
    Left {
        before: Rc<Layer>,
        result: Option<Term>,
    },
    /// What is made where a test is true, and what else, of all that either changes.
    Branch {
        frame: u32,
        test: Term,
        taken: Rc<Layer>,
        other: Rc<Layer>,
    },
    /// A chain of branches, which leaves what none of them changes.
    Chosen {
        before: Rc<Layer>,
        chain: Rc<Layer>,
    },
    /// What is changed keeps its old term where a `return` was met before.
    Kept {
        frame: u32,
        before: Rc<Layer>,
        after: Rc<Layer>,
    },
    /// A loop over all nodes, by what its body does once.
    Closed {
        frame: u32,
        before: Rc<Layer>,
        body: Rc<Layer>,
    },
    /// The entry of a body at this depth in calls.
    Entered {
        depth: u32,
        given: Items<Given>,
        before: Rc<Layer>,
    },
    /// After a call.
    Back {
        before: Rc<Layer>,
        body: Rc<Layer>,
    },
}

/// Terms for the cells under a place.
#[cycle(layers)]
#[derive(Drop)]
pub enum Shown {
    /// One term, whatever the fields and indices are.
    Only {
        frame: u32,
        term: Term,
    },
    /// The terms of the cells under a place.
    At {
        frame: u32,
        from: Rc<Layer>,
        spot: Spot,
    },
    /// What `clear` gives to cells of this type.
    Cleared(AnyType),
    Undefined,
}

/// What a call gives to a formal: to a formal by value the terms of its cells, with the bound variable that
/// it is itself, if it is one, and whether it is a plain designator; to a `var` formal a place.
#[cycle(layers)]
#[derive(Drop)]
pub enum Given {
    Filled {
        mark: Option<u32>,
        plain: bool,
        shown: Rc<Shown>,
    },
    Standing(Spot),
}
