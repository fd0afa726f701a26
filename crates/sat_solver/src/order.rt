//! The order in which variables are decided: those that took part in late conflicts first.

ghost use Rattle.std.specs.Prelude.{◌≡◌, ◌<◌, ◌^◌, false, IfSome, OnSome};
ghost use Rattle.std.specs.BinaryHeap.{heap_len};
ghost use Rattle.clause_core.specs.Literal.{variable_of};
ghost use Rattle.clause_core.specs.Members.{has};
ghost use Rattle.sat_solver.specs.Assigned.{literals_of, is_false};

use crate::trail::Trail;
use clause_core::{Lit, Memory};
use std::alloc::Global;
use std::collections::BinaryHeap;

/// Above this, all activities are made smaller at once.
const GREAT_ACTIVITY: u64 = 1 << 60;

/// How many bits the activities lose then.
const LOST_BITS: u32 = 40;

/// A variable with the activity that it had when it was put into the heap. Of equal activities the
/// smaller variable comes first.
#[derive(Clone, Copy, Debug, PartialEq, Eq, PartialOrd, Ord)]
struct Candidate {
    activity: u64,
    /// How many numbers there are above that of the variable.
    above: u32,
}

/// The variables by their activity. The heap has an entry of the present activity for each variable
/// that waits, and may have old ones, which are passed over.
#[derive(Drop)]
pub struct Order {
    variables: u32,
    activities: Vec<u64>,
    waiting: Vec<bool>,
    heap: BinaryHeap<Candidate>,
    increment: u64,
}

impl Order {
    /// The order over this many variables, all of which wait.
    pub fn make(alloc: Global, variables: u32) -> Result<Order, Memory> {
        let count = variables as usize;
        let activities = vec![in alloc; 0u64; count]?;
        let waiting = vec![in alloc; false; count]?;
        let mut order = Order {
            variables,
            activities,
            waiting,
            heap: BinaryHeap::new(alloc),
            increment: 1024,
        };
        for back in 0..variables {
            order.offer(variables - 1 - back)?;
        }
        Ok(order)
    }

    /// The activity of a variable.
    fn activity(&self, variable: u32) -> u64 {
        let at = variable as usize;
        if at < self.activities.len() {
            self.activities[at]
        } else {
            0
        }
    }

    /// Whether a variable waits.
    fn waits(&self, variable: u32) -> bool {
        let at = variable as usize;
        if at < self.waiting.len() {
            self.waiting[at]
        } else {
            true
        }
    }

    /// Puts an entry of the present activity into the heap.
    fn queue(&mut self, variable: u32) -> Result<(), Memory> {
        let activity = self.activity(variable);
        let above = u32::MAX - variable;
        self.heap.push(Candidate { activity, above })?;
        Ok(())
    }

    /// Lets a variable wait that has lost its value.
    pub fn offer(&mut self, variable: u32) -> Result<(), Memory> {
        if self.waits(variable) {
            return Ok(());
        }
        self.queue(variable)?;
        let at = variable as usize;
        if at < self.waiting.len() {
            self.waiting[at] = true;
        }
        Ok(())
    }

    /// Raises the activity of a variable that took part in a conflict.
    pub fn bump(&mut self, variable: u32) -> Result<(), Memory> {
        let at = variable as usize;
        if at >= self.activities.len() {
            return Ok(());
        }
        let raised = self.activities[at].saturating_add(self.increment);
        self.activities[at] = raised;
        if raised > GREAT_ACTIVITY {
            self.rescale();
            return self.rebuild();
        }
        if self.waits(variable) {
            return self.queue(variable);
        }
        Ok(())
    }

    /// Lets later conflicts weigh more than this one. Where most entries of the heap are old ones,
    /// they are thrown out.
    pub fn decay(&mut self) -> Result<(), Memory> {
        let part = self.increment / 16;
        self.increment = self.increment.saturating_add(part);
        if self.heap.len() / 4 > self.activities.len() {
            return self.rebuild();
        }
        Ok(())
    }

    /// Makes all activities smaller by the same factor.
    fn rescale(&mut self) {
        for activity in self.activities.iter_mut() {
            *activity >>= LOST_BITS;
        }
        self.increment >>= LOST_BITS;
        if self.increment < 1024 {
            self.increment = 1024;
        }
    }

    /// Makes the heap anew, of the variables that wait.
    fn rebuild(&mut self) -> Result<(), Memory> {
        self.heap.clear();
        for variable in 0..self.variables {
            if self.waits(variable) {
                self.queue(variable)?;
            }
        }
        Ok(())
    }

    /// Takes the next variable out, if one waits.
    fn next(&mut self) -> Option<u32>
        ensures { OnSome result (heap_len self.new.heap < heap_len self.old.heap) }
    {
        while let Some(candidate) = self.heap.pop() {
            let variable = u32::MAX - candidate.above;
            let at = variable as usize;
            if at < self.waiting.len() {
                if self.waiting[at] & (candidate.activity == self.activity(variable)) {
                    self.waiting[at] = false;
                    return Some(variable);
                }
            }
        }
        None
    }
}

/// The literal to decide next: of the most active variable that has no value, with the sign that it
/// had last.
pub fn decide(order: &mut Order, trail: &Trail) -> Option<Lit>
    ensures range { IfSome result (λ l. variable_of l < trail.now.variables) }
    ensures not_true { IfSome result (λ l. has (literals_of trail.now.entries) l ≡ false) }
    ensures not_false { IfSome result (λ l. is_false (literals_of trail.now.entries) l ≡ false) }
{
    while let Some(variable) = order.next() {
        if let Some(l) = free_literal(trail, variable) {
            return Some(l);
        }
    }
    None
}

/// The literal of a variable with the sign that it had last, if the variable has no value.
fn free_literal(trail: &Trail, variable: u32) -> Option<Lit>
    ensures range { IfSome result (λ l. variable_of l < trail.now.variables) }
    ensures not_true { IfSome result (λ l. has (literals_of trail.now.entries) l ≡ false) }
    ensures not_false { IfSome result (λ l. is_false (literals_of trail.now.entries) l ≡ false) }
{
    if variable >= trail.variables() {
        return None;
    }
    let l = signed(variable, trail.phase(variable));
    if trail.is_true(l) {
        return None;
    }
    if trail.is_false(l) {
        return None;
    }
    Some(l)
}

/// The literal of a variable that is true where the variable has this value.
fn signed(variable: u32, value: bool) -> Lit
    requires { variable < 2 ^ 31 }
    ensures { variable_of result ≡ variable }
{
    if value {
        Lit::positive(variable)
    } else {
        Lit::negative(variable)
    }
}
