//! The literals of the state after a step, and marks that hold units of them.

ghost use Rattle.std.specs.Prelude.{◌≡◌, ◌+◌, ◌*◌, ◌<◌, ◌≤◌, ◌++◌, length, map, All, true};
ghost use Rattle.clause_core.specs.Formula.{IsInRange};
ghost use Rattle.clause_core.specs.Literal.{opposite};
ghost use Rattle.inductive_check.specs.Certificates.{is_over, renamed as renamed_literal};

use clause_core::Lit;
use clause_derivation::Marks;

/// The literal at the same place of `next` as this one has in `current`, with its sign.
fn renamed(current: &[Lit], next: &[Lit], l: Lit) -> Lit
    requires { length current.now ≡ length next.now }
    ensures { result ≡ renamed_literal current.now next.now l }
{
    for (i, c) in current.iter().enumerate() {
        if c.code == l.code {
            return next[i];
        }
        if c.code == l.negated().code {
            return next[i].negated();
        }
    }
    l
}

/// Adds the opposite of each literal as a unit.
pub fn add_opposites(marks: &mut Marks, lits: &[Lit])
    requires room { length marks.old.units + length lits.now ≤ 2 * marks.old.variables + 1 }
    requires range { IsInRange marks.old.variables lits.now }
    ensures variables { marks.new.variables ≡ marks.old.variables }
    ensures units { marks.new.units ≡ marks.old.units ++ map opposite lits.now }
{
    for l in lits {
        marks.add_unit(l.negated());
    }
}

/// Adds the opposite of each renamed literal as a unit.
pub fn add_renamed(marks: &mut Marks, current: &[Lit], next: &[Lit], lits: &[Lit])
    requires room { length marks.old.units + length lits.now ≤ 2 * marks.old.variables + 1 }
    requires lengths { length current.now ≡ length next.now }
    requires range { IsInRange marks.old.variables next.now }
    requires over { All (λ l. is_over current.now l ≡ true) lits.now }
    ensures variables { marks.new.variables ≡ marks.old.variables }
    ensures units { marks.new.units
        ≡ marks.old.units ++ map opposite (map (renamed_literal current.now next.now) lits.now) }
{
    for l in lits {
        marks.add_unit(renamed(current, next, *l).negated());
    }
}
