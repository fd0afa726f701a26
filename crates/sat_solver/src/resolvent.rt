//! The clause that the steps of a chain have left so far, as marks.

ghost use Rattle.std.specs.Prelude.{◌≡◌, ◌*◌, length, false, true, OnOk, IfOk};
ghost use Rattle.clause_core.specs.Literal.{variable_of};
ghost use Rattle.clause_derivation.specs.Marking.{mark_of, AreMarks, HavePlaces};
ghost use Rattle.clause_core.specs.Members.{NoneTwice};
ghost use Rattle.sat_solver.specs.Resolving.{IsStep};
ghost use Rattle.sat_solver.specs.Naming.{IsReasonFor};

use crate::marking::{gather, is_marked, mark_each, mark_others, unmark, unmark_each};
use clause_core::{Lit, MOST_VARIABLES, Memory, contains};
use std::alloc::Global;
use std::marker::Model;

/// A clause as marks, one for each literal. Contracts see the marks. Beside them stands a list that
/// has each marked literal, so that marks are taken away without a pass over all.
#[derive(Debug, Drop)]
pub struct Resolvent {
    alloc: Global,
    marked: Vec<bool>,
    touched: Vec<Lit>,
}

impl Model for Resolvent {
    ghost use Rattle.std.specs.Prelude.{List, Bool};
    ghost use Rattle.clause_derivation.specs.Marking.{AreWithin};

    ghost Value = { List Bool };

    ghost view = { λ r. r.marked.items };

    ghost invariant = { λ r. AreWithin r.marked.items r.touched.items };
}

impl Resolvent {
    /// Marks for the literals of this many variables, none of them marked. More than 2^31 variables
    /// are answered as want of memory.
    pub fn make(alloc: Global, variables: u32) -> Result<Resolvent, Memory>
        ensures { IfOk result (λ r. length r ≡ 2 * variables) }
    {
        if variables > MOST_VARIABLES {
            return Err(Memory);
        }
        let marked = vec![in alloc; false; 2 * variables as usize]?;
        Ok(Resolvent {
            alloc,
            marked,
            touched: Vec::new(alloc),
        })
    }

    /// Whether a literal is marked.
    pub fn is_marked(&self, l: Lit) -> bool
        ensures { result ≡ mark_of self.now l }
    {
        is_marked(self.marked.as_slice(), l)
    }

    /// The literals that were marked since `start`, in the order of marking. A literal that lost its
    /// mark stands there still.
    pub fn touched(&self) -> &[Lit] {
        self.touched.as_slice()
    }

    /// Makes the marks those of a clause.
    pub fn start(&mut self, lits: &[Lit]) -> Result<(), Memory>
        requires { HavePlaces (length self.old) lits.now }
        ensures length { length self.new ≡ length self.old }
        ensures marks { OnOk result (AreMarks self.new lits.now) }
    {
        unmark_each(self.marked.as_mut_slice(), self.touched.as_slice());
        self.touched.clear();
        mark_each(self.marked.as_mut_slice(), &mut self.touched, lits)
    }

    /// Resolves the marked clause with the reason of a true literal, where the opposite of that
    /// literal is marked. Where this is no step, the answer is `false` and the marks stay.
    pub fn resolve(&mut self, made: Lit, reason: &[Lit]) -> Result<bool, Memory>
        requires { HavePlaces (length self.old) reason.now }
        ensures length { length self.new ≡ length self.old }
        ensures step { IfOk result (λ b. b ≡ true
            → IsStep self.old self.new (variable_of made) reason.now) }
        ensures none { IfOk result (λ b. b ≡ false → self.new ≡ self.old) }
        ensures reason { IfOk result (λ b. b ≡ true → IsReasonFor reason.now made) }
    {
        let opposite = made.negated();
        if !self.is_marked(opposite) {
            return Ok(false);
        }
        if !contains(reason, made) {
            return Ok(false);
        }
        if contains(reason, opposite) {
            return Ok(false);
        }
        unmark(self.marked.as_mut_slice(), opposite);
        mark_others(self.marked.as_mut_slice(), &mut self.touched, reason, made)?;
        Ok(true)
    }

    /// The literals of the marked clause, each once. The marks are taken away.
    pub fn take(&mut self) -> Result<Vec<Lit>, Memory>
        ensures length { length self.new ≡ length self.old }
        ensures marks { IfOk result (λ v. AreMarks self.old v.items) }
        ensures once { IfOk result (λ v. NoneTwice v.items) }
        ensures range { IfOk result (λ v. HavePlaces (length self.old) v.items) }
    {
        gather(
            self.alloc,
            self.marked.as_mut_slice(),
            self.touched.as_slice(),
        )
    }
}
