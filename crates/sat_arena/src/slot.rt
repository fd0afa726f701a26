//! Where an arena keeps a clause: its literals, and where it stands in its two watch lists.

ghost use Rattle.std.specs.Prelude.{◌≡◌, ◌==◌, ◌+◌, ◌<◌, ◌≤◌, if◌then◌else◌, ℕ, length, Some, None, IsSome};
ghost use Rattle.std.specs.List.{swap, slice_index_or};
ghost use Rattle.clause_core.specs.Members.{NoneTwice};
ghost use Rattle.clause_core.specs.declared.literal.Lit.{Lit as Literal};
ghost use Rattle.sat_arena.specs.Linking.{position, says_swapped};

use clause_core::Lit;

/// A clause, or nothing: a slot without literals is empty, since each clause has at least two.
#[derive(Debug, Drop)]
pub struct Slot {
    /// The literals of the clause, the two watched ones first.
    pub lits: Vec<Lit>,
    /// The position of the clause in the watch list of its first literal.
    pub first: usize,
    /// The position of the clause in the watch list of its second literal.
    pub second: usize,
    /// The place that `compact` gives to the clause. It means nothing between calls.
    pub moved: u32,
}

impl Slot {
    /// Says that the clause stands at another position in the watch list of a literal at which it is
    /// watched.
    pub fn set_position(&mut self, l: Lit, at: usize)
        requires { IsSome (position l.code self.old) }
        ensures lits { self.new.lits ≡ self.old.lits }
        ensures moved { self.new.moved ≡ self.old.moved }
        ensures position { (c : ℕ) → position c self.new ≡ (if l.code == c then Some at else position c self.old) }
    {
        if self.lits[0].code == l.code {
            self.first = at;
        } else {
            self.second = at;
        }
    }

    /// The position of the clause in the watch list of its first or its second literal.
    pub fn position_of(&self, index: usize) -> usize
        ensures { result ≡ (if index == 0 then self.now.first else self.now.second) }
    {
        if index == 0 { self.first } else { self.second }
    }

    /// Swaps the watched literal at index `from` with the one at index `to`, in whose watch list the
    /// clause then stands at this position.
    pub fn move_watch(&mut self, from: usize, to: usize, at: usize)
        requires from { from < 2 }
        requires to { 2 ≤ to }
        requires within { to < length self.old.lits.items }
        requires once { NoneTwice self.old.lits.items }
        ensures lits { self.new.lits.items ≡ swap self.old.lits.items from to }
        ensures moved { self.new.moved ≡ self.old.moved }
        ensures position { (d : Literal) (c : ℕ) → position c self.new
            ≡ says_swapped (slice_index_or self.old.lits.items from d).code
            (slice_index_or self.old.lits.items to d).code at c (position c self.old) }
    {
        self.lits.swap(from, to);
        if from == 0 {
            self.first = at;
        } else {
            self.second = at;
        }
    }
}
