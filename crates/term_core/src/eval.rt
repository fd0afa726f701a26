//! The value of a term in a state. Nothing here takes memory.

#![tactic(auto, using(crate::proofs::Equations::steps))]

ghost use Rattle.std.specs.Prelude.{◌≡◌, ◌+◌, ◌≤◌, ◌<◌, ◌^◌, ◌∷◌, ◌++◌, [], true, false, length, suc, IfSome};
ghost use Rattle.std.specs.List.{list_all, list_any};
ghost use Rattle.term_core.specs.Nodes.{nodes};
ghost use Rattle.term_core.specs.Values.{truth};
ghost use Rattle.term_core.specs.Meaning.{value_of, cell_at, holds_at};
ghost use Rattle.term_core.specs.Variables.{nesting};
ghost use Rattle.term_core.specs.Views.{cells_of};
ghost use Rattle.term_core.specs.Lists.{list_nesting, list_indices, list_place};

use crate::frame::Frame;
use crate::state::NodeState;
use crate::term::Term;
use crate::value::Value;

impl Term {
    /// The value of the term with these nodes as its variables. The frame needs room for its
    /// quantifiers, and is left as it was. It takes no memory.
    #[cycle(value)]
    pub fn value(&self, state: &NodeState, frame: &mut Frame) -> Value
        requires { length frame.old.nodes + nesting self.now ≤ frame.old.room }
        ensures value { result ≡ value_of state.now.nodes (cells_of state.now) frame.old.nodes self.now }
        ensures frame { frame.new ≡ frame.old }
    {
        match self {
            Term::Known(value) => *value,
            Term::Var(number) => frame.value(*number),
            Term::Read { family, at } => read(*family, at.as_slice(), state, frame),
            Term::Not(body) => {
                let value = body.get().value(state, frame);
                Value::Truth(!value.is_true())
            }
            Term::And(parts) => Value::Truth(all_hold(parts.as_slice(), state, frame)),
            Term::Or(parts) => Value::Truth(one_holds(parts.as_slice(), state, frame)),
            Term::If { test, yes, no } => {
                if test.get().value(state, frame).is_true() {
                    yes.get().value(state, frame)
                } else {
                    no.get().value(state, frame)
                }
            }
            Term::Same { left, right } => {
                let left = left.get().value(state, frame);
                let right = right.get().value(state, frame);
                Value::Truth(left.is_same(right))
            }
            Term::Less { left, right } => {
                let left = left.get().value(state, frame);
                let right = right.get().value(state, frame);
                Value::Truth(left.number() < right.number())
            }
            Term::Arith { op, left, right } => {
                let left = left.get().value(state, frame);
                let right = right.get().value(state, frame);
                op.value(left, right)
            }
            Term::Quantified { all: true, body } => {
                Value::Truth(holds_for_all(body.get(), state, frame))
            }
            Term::Quantified { all: false, body } => {
                Value::Truth(holds_for_one(body.get(), state, frame))
            }
        }
    }
}

/// Whether all terms are true.
#[cycle(value)]
fn all_hold(parts: &[Term], state: &NodeState, frame: &mut Frame) -> bool
    requires { length frame.old.nodes + list_nesting parts.now ≤ frame.old.room }
    ensures value { result ≡ list_all (λ t. truth (value_of state.now.nodes (cells_of state.now) frame.old.nodes t)) parts.now }
    ensures frame { frame.new ≡ frame.old }
{
    for part in parts {
        if !part.value(state, frame).is_true() {
            return false;
        }
    }
    true
}

/// Whether one of the terms is true.
#[cycle(value)]
fn one_holds(parts: &[Term], state: &NodeState, frame: &mut Frame) -> bool
    requires { length frame.old.nodes + list_nesting parts.now ≤ frame.old.room }
    ensures value { result ≡ list_any (λ t. truth (value_of state.now.nodes (cells_of state.now) frame.old.nodes t)) parts.now }
    ensures frame { frame.new ≡ frame.old }
{
    for part in parts {
        if part.value(state, frame).is_true() {
            return true;
        }
    }
    false
}

/// Whether a term is true with this node as the next variable.
#[cycle(value)]
fn holds_with(node: u32, body: &Term, state: &NodeState, frame: &mut Frame) -> bool
    requires { length frame.old.nodes + suc (nesting body.now) ≤ frame.old.room }
    ensures value { result ≡ truth (value_of state.now.nodes (cells_of state.now) (frame.old.nodes ++ node ∷ []) body.now) }
    ensures frame { frame.new ≡ frame.old }
{
    frame.push(node);
    let value = body.value(state, frame);
    frame.pop();
    value.is_true()
}

/// Whether a term is true with each node as the next variable.
#[cycle(value)]
fn holds_for_all(body: &Term, state: &NodeState, frame: &mut Frame) -> bool
    requires { length frame.old.nodes + suc (nesting body.now) ≤ frame.old.room }
    ensures value { result ≡ holds_at true (λ n. truth (value_of state.now.nodes (cells_of state.now) (frame.old.nodes ++ n ∷ []) body.now)) (nodes state.now.nodes) }
    ensures frame { frame.new ≡ frame.old }
{
    let count = state.nodes();
    for before in 0..count {
        if !holds_with(before + 1, body, state, frame) {
            return false;
        }
    }
    true
}

/// Whether a term is true with some node as the next variable.
#[cycle(value)]
fn holds_for_one(body: &Term, state: &NodeState, frame: &mut Frame) -> bool
    requires { length frame.old.nodes + suc (nesting body.now) ≤ frame.old.room }
    ensures value { result ≡ holds_at false (λ n. truth (value_of state.now.nodes (cells_of state.now) (frame.old.nodes ++ n ∷ []) body.now)) (nodes state.now.nodes) }
    ensures frame { frame.new ≡ frame.old }
{
    let count = state.nodes();
    for before in 0..count {
        if holds_with(before + 1, body, state, frame) {
            return true;
        }
    }
    false
}

/// The value of the cell of a family at the nodes that terms stand for.
#[cycle(value)]
fn read(family: u32, at: &[Term], state: &NodeState, frame: &mut Frame) -> Value
    requires { length frame.old.nodes + list_nesting at.now ≤ frame.old.room }
    ensures value { result ≡ cell_at (cells_of state.now) family (list_indices state.now.nodes (cells_of state.now) frame.old.nodes at.now) }
    ensures frame { frame.new ≡ frame.old }
{
    if !state.has_axes(family, at.len()) {
        return Value::Undefined;
    }
    match place(at, state, frame) {
        Some(place) => state.value_at(family, place),
        None => Value::Undefined,
    }
}

/// The place in its family of the cell at the nodes that terms stand for.
#[cycle(value)]
fn place(at: &[Term], state: &NodeState, frame: &mut Frame) -> Option<usize>
    requires room { length frame.old.nodes + list_nesting at.now ≤ frame.old.room }
    requires fits { state.now.nodes ^ length at.now < 2 ^ 64 }
    ensures value { result ≡ list_place state.now.nodes (cells_of state.now) frame.old.nodes 0 at.now }
    ensures bound { IfSome result (λ p. p < state.now.nodes ^ length at.now) }
    ensures frame { frame.new ≡ frame.old }
{
    let mut place = 0;
    for term in at {
        let value = term.value(state, frame);
        match state.index(value) {
            Some(node) => place = state.lead_on(place, node),
            None => return None,
        }
    }
    Some(place)
}
