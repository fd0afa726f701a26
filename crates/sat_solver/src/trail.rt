//! The trail: the literals that are true, in the order in which they were made true, and the
//! decision levels.

ghost use Rattle.std.specs.Prelude.{◌≡◌, ◌+◌, ◌*◌, ◌<◌, ◌≤◌, ◌^◌, [], ◌∷◌, ◌++◌, length, take, false, true, slice_index_or, OnOk, OnErr, IfOk, IfSome, IsSome, All};
ghost use Rattle.clause_core.specs.declared.literal.Lit.{Lit as Literal};
ghost use Rattle.clause_core.specs.Literal.{variable_of, opposite};
ghost use Rattle.clause_core.specs.Truth.{literal_true};
ghost use Rattle.clause_core.specs.Members.{has};

use crate::entries::{facts, positives, put_level, put_phase, reason_of, undo};
use crate::entry::Entry;
use crate::marking::is_marked;
use crate::origin::Origin;
use clause_core::{Assignment, Lit, MOST_VARIABLES, Memory};
use std::alloc::Global;
use std::marker::Model;

/// The literals that are true, each with its reason. Contracts see a `Path`: the number of
/// variables, the entries in order, and how many there were when each decision level was opened.
/// The entries before the first level are facts.
///
/// What decides the speed alone is kept beside: the level of each variable, the sign that it had
/// last, and how far the trail is propagated.
#[derive(Debug, Drop)]
pub struct Trail {
    alloc: Global,
    variables: u32,
    entries: Vec<Entry>,
    starts: Vec<usize>,
    values: Vec<bool>,
    levels: Vec<usize>,
    phases: Vec<bool>,
    propagated: usize,
}

impl Model for Trail {
    ghost use Rattle.sat_solver.specs.Assigned.{Path, IsTrail};

    ghost Value = { Path };

    ghost view = { λ t. record { variables = t.variables; entries = t.entries.items; starts = t.starts.items } };

    ghost invariant = { λ t. IsTrail t.variables t.entries.items t.values.items };
}

impl Trail {
    ghost use Rattle.sat_solver.specs.declared.entry.Entry.{Entry as Made};
    ghost use Rattle.sat_solver.specs.Assigned.{literals_of, is_false, reason_in};

    /// The empty trail over this many variables. More than 2^31 are answered as want of memory.
    pub fn make(alloc: Global, variables: u32) -> Result<Trail, Memory>
        ensures variables { IfOk result (λ t. t.variables ≡ variables) }
        ensures entries { IfOk result (λ t. t.entries ≡ []) }
        ensures starts { IfOk result (λ t. t.starts ≡ []) }
    {
        if variables > MOST_VARIABLES {
            return Err(Memory);
        }
        let count = variables as usize;
        let values = vec![in alloc; false; 2 * count]?;
        let levels = vec![in alloc; 0usize; count]?;
        let phases = vec![in alloc; false; count]?;
        Ok(Trail {
            alloc,
            variables,
            entries: Vec::new(alloc),
            starts: Vec::new(alloc),
            values,
            levels,
            phases,
            propagated: 0,
        })
    }

    /// How many variables there are.
    pub fn variables(&self) -> u32
        ensures value { result ≡ self.now.variables }
        ensures few { self.now.variables ≤ 2 ^ 31 }
    {
        self.variables
    }

    /// The entries, in order.
    pub fn entries(&self) -> &[Entry]
        ensures items { result.now ≡ self.now.entries }
        ensures bound { length result.now ≤ 2 * self.now.variables }
    {
        self.entries.as_slice()
    }

    /// Whether a literal is true.
    pub fn is_true(&self, l: Lit) -> bool
        ensures value { result ≡ has (literals_of self.now.entries) l }
        ensures apart { result ≡ true → is_false (literals_of self.now.entries) l ≡ false }
    {
        is_marked(self.values.as_slice(), l)
    }

    /// Whether a literal is false.
    pub fn is_false(&self, l: Lit) -> bool
        ensures { result ≡ is_false (literals_of self.now.entries) l }
    {
        self.is_true(l.negated())
    }

    /// How many decision levels are open.
    pub fn depth(&self) -> usize
        ensures { result ≡ length self.now.starts }
    {
        self.starts.len()
    }

    /// How many entries there are before a decision level.
    pub fn start(&self, level: usize) -> usize
        requires { level < length self.now.starts }
        ensures { result ≡ slice_index_or self.now.starts level result }
    {
        self.starts[level]
    }

    /// The decision level at which the variable of a literal got its value.
    pub fn level(&self, l: Lit) -> usize {
        let at = l.variable() as usize;
        if at < self.levels.len() {
            self.levels[at]
        } else {
            0
        }
    }

    /// The sign that a variable had last: whether it was true.
    pub fn phase(&self, variable: u32) -> bool {
        let at = variable as usize;
        if at < self.phases.len() {
            self.phases[at]
        } else {
            false
        }
    }

    /// The reason of a literal, if it is on the trail and has one.
    pub fn reason(&self, l: Lit) -> Option<Origin>
        ensures { result ≡ reason_in self.now.entries l }
    {
        reason_of(self.entries.as_slice(), l)
    }

    /// Makes a literal true that has no value.
    pub fn enqueue(&mut self, l: Lit, reason: Option<Origin>) -> Result<(), Memory>
        requires range { variable_of l < self.old.variables }
        requires not_true { has (literals_of self.old.entries) l ≡ false }
        requires not_false { is_false (literals_of self.old.entries) l ≡ false }
        ensures variables { self.new.variables ≡ self.old.variables }
        ensures starts { self.new.starts ≡ self.old.starts }
        ensures ok { OnOk result (self.new.entries
            ≡ self.old.entries ++ record { lit = l; reason = reason } ∷ []) }
        ensures err { OnErr result (self.new.entries ≡ self.old.entries) }
        ensures bound { OnOk result (length self.new.entries ≤ 2 * self.new.variables) }
    {
        self.entries.push(Entry { lit: l, reason })?;
        self.values[l.code as usize] = true;
        let at = l.variable() as usize;
        put_level(self.levels.as_mut_slice(), at, self.starts.len());
        put_phase(self.phases.as_mut_slice(), at, !l.is_negated());
        Ok(())
    }

    /// Opens a decision level.
    pub fn open_level(&mut self) -> Result<(), Memory>
        ensures variables { self.new.variables ≡ self.old.variables }
        ensures entries { self.new.entries ≡ self.old.entries }
        ensures ok { OnOk result (self.new.starts
            ≡ self.old.starts ++ length self.old.entries ∷ []) }
        ensures err { OnErr result (self.new.starts ≡ self.old.starts) }
    {
        self.starts.push(self.entries.len())?;
        Ok(())
    }

    /// Goes back to a decision level: the entries after it lose their values, and exactly those
    /// before the start of the next level stay.
    pub fn backjump(&mut self, level: usize)
        requires { level < length self.old.starts }
        ensures variables { self.new.variables ≡ self.old.variables }
        ensures starts { self.new.starts ≡ take level self.old.starts }
        ensures entries { self.new.entries
            ≡ take (slice_index_or self.old.starts level 0) self.old.entries }
    {
        let keep = self.starts[level];
        self.starts.truncate(level);
        undo(&mut self.entries, self.values.as_mut_slice(), keep);
        self.propagated = self.propagated.min(keep);
    }

    /// Takes off everything from the first entry without a reason on, and closes all levels.
    pub fn keep_facts(&mut self)
        ensures variables { self.new.variables ≡ self.old.variables }
        ensures starts { self.new.starts ≡ [] }
        ensures prefix { self.new.entries ≡ take (length self.new.entries) self.old.entries }
        ensures reasons { All (λ (e : Made). IsSome e.reason) self.new.entries }
    {
        let keep = facts(self.entries.as_slice());
        self.starts.clear();
        undo(&mut self.entries, self.values.as_mut_slice(), keep);
        self.propagated = self.propagated.min(keep);
    }

    /// Lets all entries be propagated again.
    pub fn propagate_anew(&mut self)
        ensures { self.new ≡ self.old }
    {
        self.propagated = 0;
    }

    /// The next true literal that is not propagated, if there is one. It counts as propagated.
    pub fn next(&mut self) -> Option<Lit>
        ensures same { self.new ≡ self.old }
        ensures range { IfSome result (λ l. variable_of l < self.old.variables) }
    {
        if self.propagated < self.entries.len() {
            let l = self.entries[self.propagated].lit;
            self.propagated += 1;
            return Some(l);
        }
        None
    }

    /// The assignment in which exactly the variables are true whose literals are. It makes each true
    /// literal of the trail true.
    pub fn assignment(&self) -> Result<Assignment, Memory>
        ensures length { IfOk result (λ a. length a ≡ self.now.variables) }
        ensures keeps { IfOk result (λ a. (l : Literal)
            → has (literals_of self.now.entries) l ≡ true → literal_true a l ≡ true) }
    {
        let values = positives(self.alloc, self.values.as_slice(), self.variables)?;
        Ok(Assignment::make(self.alloc, values))
    }
}
